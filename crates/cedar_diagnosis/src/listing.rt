//! The declarations of fragments, listed.

ghost use Rattle.std.specs.Prelude.{◌≡◌, ◌++◌, IfOk, Option, OnOk, map, string_bytes};
ghost use Rattle.std.specs.List.{flat_map};
ghost use Rattle.cedar_ast.specs.Words.{PlainName, Text, unreserved_id_text};
ghost use Rattle.cedar_diagnosis.specs.Lent.{declarations_of, lent_body, lent_id, namespace_of};
ghost use Rattle.cedar_schema_ast.specs.declared.json_schema.raw_name.RawName.{RawName as Raw};
ghost use Rattle.cedar_schema_ast.specs.Words.{Body, Declaration, action, action_body, common_type, common_type_text, entity_type, raw_bag, raw_declarations, raw_entity_body, raw_expr, raw_fragment, raw_reference};

use crate::lent::{Lent, LentBody};
use cedar_ast::{M, Name, UnreservedId};
use cedar_schema_ast::json_schema::{
    ActionType, CommonType, CommonTypeId, EntityType, Fragment, NamespaceDefinition, RawName,
};
use std::alloc::Global;
use std::collections::BTreeMap;

/// What is declared under ids.
///
/// The ghost members say what the id of a declaration is, and what it says.
trait Declared {
    type Key: Ord;

    ghost id_text: { Self.Key → Text };

    ghost said: { Option PlainName → Self → Body };

    /// The declaration under an id.
    fn lend<'a>(id: &'a Self::Key, declared: &'a Self) -> LentBody<'a>
        ensures id { lent_id result ≡ id_text id.now }
        ensures body { (namespace : Option PlainName)
            → lent_body namespace result ≡ said namespace declared.now };
}

impl Declared for CommonType<RawName> {
    type Key = CommonTypeId;

    ghost id_text = { common_type_text };

    ghost said = { λ namespace it. common_type (raw_expr namespace it.ty) };

    fn lend<'a>(id: &'a CommonTypeId, declared: &'a Self) -> LentBody<'a> {
        LentBody::CommonType { id, declared }
    }
}

impl Declared for EntityType<RawName> {
    type Key = UnreservedId;

    ghost id_text = { unreserved_id_text };

    ghost said = { λ namespace it. entity_type (raw_entity_body namespace it) };

    fn lend<'a>(id: &'a UnreservedId, declared: &'a Self) -> LentBody<'a> {
        LentBody::EntityType { id, declared }
    }
}

impl Declared for ActionType<RawName> {
    type Key = String;

    ghost id_text = { string_bytes };

    ghost said = { λ namespace it.
        action (action_body Raw (raw_reference namespace) namespace it) };

    fn lend<'a>(id: &'a String, declared: &'a Self) -> LentBody<'a> {
        LentBody::Action { id, declared }
    }
}

/// Lists what a namespace declares of one kind.
fn list_declared<'a, T: Declared>(
    listed: &mut Vec<Lent<'a>>,
    namespace: &'a Option<Name>,
    declared: &'a BTreeMap<T::Key, T>,
) -> M<()>
    ensures { OnOk result (declarations_of listed.new.items
        ≡ declarations_of listed.old.items
        ++ map (λ entry. record {
          namespace = namespace_of namespace.now;
          id = T.id_text entry.0;
          body = T.said (namespace_of namespace.now) entry.1;
        }) declared.now.entries) }
{
    for (id, it) in declared {
        let body = T::lend(id, it);
        listed.push(Lent { namespace, body })?;
    }
    Ok(())
}

/// Lists what a namespace declares.
fn list_definition<'a>(
    listed: &mut Vec<Lent<'a>>,
    namespace: &'a Option<Name>,
    it: &'a NamespaceDefinition<RawName>,
) -> M<()>
    ensures { OnOk result (declarations_of listed.new.items
        ≡ declarations_of listed.old.items
        ++ raw_declarations (namespace_of namespace.now) it.now) }
{
    list_declared(listed, namespace, &it.common_types)?;
    list_declared(listed, namespace, &it.entity_types)?;
    list_declared(listed, namespace, &it.actions)
}

/// Lists what a fragment declares.
fn list_fragment<'a>(listed: &mut Vec<Lent<'a>>, fragment: &'a Fragment<RawName>) -> M<()>
    ensures { OnOk result (declarations_of listed.new.items
        ≡ declarations_of listed.old.items ++ raw_fragment fragment.now) }
{
    for (namespace, it) in &fragment.0 {
        list_definition(listed, namespace, it)?;
    }
    Ok(())
}

/// What fragments declare, in their order.
pub(crate) fn listed<'a>(alloc: Global, fragments: &'a [Fragment<RawName>]) -> M<Vec<Lent<'a>>>
    ensures { IfOk result (λ listed. declarations_of listed.items ≡ raw_bag fragments.now) }
{
    let mut listed = Vec::new(alloc);
    for fragment in fragments {
        list_fragment(&mut listed, fragment)?;
    }
    Ok(listed)
}
