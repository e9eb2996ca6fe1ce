//! What of a fragment is listed in its table.

ghost use Rattle.std.specs.Prelude.{◌≡◌, Option, IfOk, map};
ghost use Rattle.std.specs.List.{flat_map};
ghost use Rattle.cedar_places.specs.Words.{IsListed, Marked, Marks, PlainName, action_mark, common_type_mark, definition_marks, entity_type_mark, fragment_marks, full_name, id_text, kind_marks, marked, marks_under, name_of, namespace_of, requests_marks, type_marks};

use crate::table::Table;
use crate::type_listing::list_type;
use crate::written::{Places, Written, WrittenAt};
use cedar_ast::{Id, InternalName, M, Name, UnreservedId, identifier};
use cedar_schema_ast::json_schema::{
    ActionType, CommonType, CommonTypeId, EntityType, EntityTypeKind, Fragment,
    NamespaceDefinition, RawName,
};
use std::alloc::Global;
use std::collections::BTreeMap;

/// The name in full of what is declared under an id in a namespace.
fn full_name(alloc: Global, namespace: &Option<Name>, id: Id) -> M<InternalName>
    ensures { IfOk result (λ name.
        name_of name ≡ full_name (namespace_of namespace.now) (id_text id)) }
{
    let name = RawName::new(InternalName::new(id, Vec::new(alloc), None));
    match namespace {
        Some(namespace) => name.qualify_with(alloc, Some(namespace.as_internal())),
        None => name.qualify_with(alloc, None),
    }
}

/// What is declared under ids.
///
/// The ghost members are what contracts speak of: what is listed of a declaration itself, by its
/// namespace and its id, and what is listed of the types in it.
trait Declared {
    type Key: Ord;

    ghost mark: { Option PlainName → Self.Key → Self → Marked };

    ghost inner: { Self → Marks };

    /// The declaration under an id of a namespace.
    fn at(&self, alloc: Global, namespace: &Option<Name>, id: &Self::Key) -> M<WrittenAt>
        ensures { IfOk result (λ it.
            marked it ≡ mark (namespace_of namespace.now) id.now self.now) };

    /// Lists what is in the types of the declaration.
    fn list_types(&self, table: &mut Table)
        ensures { IsListed (inner self.now) table.old table.new };
}

/// Lists the declarations of a namespace, each with what is in its types.
fn list_declarations<T: Declared>(
    alloc: Global,
    namespace: &Option<Name>,
    declarations: &BTreeMap<T::Key, T>,
    table: &mut Table,
)
    ensures { IsListed (flat_map (marks_under (T.mark (namespace_of namespace.now)) T.inner)
        declarations.now.entries) table.old table.new }
{
    for (id, it) in declarations {
        table.add(it.at(alloc, namespace, id));
        it.list_types(table);
    }
}

impl Declared for CommonType<RawName> {
    type Key = CommonTypeId;

    ghost mark = { common_type_mark };

    ghost inner = { λ it. type_marks it.ty };

    fn at(&self, alloc: Global, namespace: &Option<Name>, id: &CommonTypeId) -> M<WrittenAt> {
        let name = full_name(alloc, namespace, id.as_id().as_id().clone()?)?;
        Ok(WrittenAt {
            what: Written::CommonType(name),
            loc: self.loc,
        })
    }

    fn list_types(&self, table: &mut Table) {
        list_type(&self.ty, table);
    }
}

impl Declared for EntityType<RawName> {
    type Key = UnreservedId;

    ghost mark = { entity_type_mark };

    ghost inner = { λ it. kind_marks it.kind };

    fn at(&self, alloc: Global, namespace: &Option<Name>, id: &UnreservedId) -> M<WrittenAt> {
        let name = full_name(alloc, namespace, id.as_id().clone()?)?;
        Ok(WrittenAt {
            what: Written::EntityType(name),
            loc: self.loc,
        })
    }

    fn list_types(&self, table: &mut Table) {
        let EntityTypeKind::Standard(standard) = &self.kind else {
            return;
        };
        list_type(&standard.shape.0, table);
        if let Some(tags) = &standard.tags {
            list_type(tags, table);
        }
    }
}

impl Declared for ActionType<RawName> {
    type Key = String;

    ghost mark = { action_mark };

    ghost inner = { λ it. requests_marks it.applies_to };

    fn at(&self, alloc: Global, namespace: &Option<Name>, id: &String) -> M<WrittenAt> {
        let ty = full_name(alloc, namespace, identifier(alloc, "Action")?)?;
        Ok(WrittenAt {
            what: Written::Action {
                ty,
                id: id.clone()?,
                has_attributes: self.attributes.is_some(),
            },
            loc: self.loc,
        })
    }

    fn list_types(&self, table: &mut Table) {
        if let Some(requests) = &self.applies_to {
            list_type(&requests.context.0, table);
        }
    }
}

/// Lists what a namespace declares.
fn list_definition(
    alloc: Global,
    namespace: &Option<Name>,
    it: &NamespaceDefinition<RawName>,
    table: &mut Table,
)
    ensures { IsListed (definition_marks (namespace_of namespace.now) it.now) table.old table.new }
{
    list_declarations(alloc, namespace, &it.common_types, table);
    list_declarations(alloc, namespace, &it.entity_types, table);
    list_declarations(alloc, namespace, &it.actions, table);
}

impl Places {
    /// What a fragment declares, in its order, with its places: in each namespace the common types,
    /// the entity types and the actions, each followed by the open record types and the extension
    /// types in its types. Memory may run out.
    pub fn of(alloc: Global, fragment: &Fragment<RawName>) -> M<Places>
        ensures { IfOk result (λ places.
            map marked places.0.items ≡ fragment_marks fragment.now) }
    {
        let mut table = Table::new(alloc);
        for (namespace, definition) in &fragment.0 {
            list_definition(alloc, namespace, definition, &mut table);
        }
        table.whole()
    }
}
