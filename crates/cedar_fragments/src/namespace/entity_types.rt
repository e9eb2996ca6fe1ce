//! The entity types of a namespace.

ghost use Rattle.std.specs.Prelude.{◌≡◌, ◌⊎◌, IfOk, IfErr, OnOk, Option, map, Contains, []};
ghost use Rattle.std.specs.List.{AllByRecursion};
ghost use Rattle.std.specs.Slice.Iter.{iter_rest};
ghost use Rattle.cedar_fragments.specs.Words.{IsActionType, IsEntityTypeNameFault, PlainName, Reference, ReferenceType, entity_parents, entity_type_declarations, entity_type_defs, fault_of, fragment_body, name_within, namespace_name, path_within, raw_entity_body, raw_expr, raw_reference, reserved_word, type_expr, type_name, unreserved_id_text};
ghost use Rattle.cedar_schema_ast.specs.declared.json_schema.raw_name.RawName.{RawName as Raw};
ghost use Rattle.std.specs.Option.{option_map};
ghost use Rattle.cedar_schema_ast.specs.declared.json_schema.conditional_name.ConditionalName.{ConditionalName as Conditional};
ghost use Rattle.cedar_schema_ast.specs.declared.json_schema.reference_type.ReferenceType.TheVariants.{Entity as entity};

use crate::namespace::entity_type_def::EntityTypeDef;
use crate::namespace::taken_names::TakenOver;
use cedar_ast::{Eid, EntityType, InternalName, Loc, M, NonEmpty, UnreservedId};
use cedar_name_resolution::full_name::full_name;
use cedar_schema_ast::json_schema;
use cedar_schema_ast::json_schema::{
    AttributesOrContext, ConditionalName, EntityTypeKind, RawName, ReferenceType, Type,
};
use cedar_schema_semantics::SchemaError;
use std::alloc::Global;
use std::collections::BTreeMap;
use std::slice;

/// The entity types that a definition declares, each under its full name.
#[derive(Debug, Drop)]
pub struct EntityTypesDef<N> {
    pub(crate) defs: Vec<EntityTypeDef<N>>,
}

/// What is declared of an entity type.
#[derive(Debug, Drop)]
pub enum EntityTypeFragment<N> {
    /// A type whose entities may have any id, and may have attributes, tags and ancestors.
    Standard {
        /// The record type of an entity's attributes.
        attributes: AttributesOrContext<N>,
        /// The entity types whose entities may be direct parents of an entity of this type.
        parents: Vec<N>,
        /// The type that the values of all tags have, or None where an entity can't have tags.
        tags: Option<Type<N>>,
    },
    /// An enumerated type, whose entities are those with the listed ids.
    Enum(NonEmpty<Eid>),
    /// A type that is defined elsewhere.
    External {
        /// The entity types whose entities may be direct parents of an entity of this type.
        parents: Vec<N>,
    },
}

impl<N> EntityTypesDef<N> {
    /// No entity types.
    pub fn new(alloc: Global) -> Self
        ensures { (refer : ReferenceType → N → Reference)
            → entity_type_declarations N refer result ≡ [] }
    {
        EntityTypesDef {
            defs: Vec::new(alloc),
        }
    }

    /// The entity types, in order.
    pub fn iter(&self) -> slice::Iter<'_, EntityTypeDef<N>>
        ensures { iter_rest result ≡ entity_type_defs N self.now }
    {
        self.defs.iter()
    }
}

impl<N> EntityTypeFragment<N> {
    /// The entity types whose entities may be direct parents of an entity of this type; an
    /// enumerated type has none.
    pub fn parents(&self) -> &[N]
        ensures { (refer : ReferenceType → N → Reference)
            → map (refer entity) result.now ≡ entity_parents (fragment_body N refer self.now) }
    {
        match self {
            EntityTypeFragment::Standard { parents, .. } => parents.as_slice(),
            EntityTypeFragment::Enum(_) => &[],
            EntityTypeFragment::External { parents } => parents.as_slice(),
        }
    }
}

impl EntityTypeFragment<RawName> {
    /// What is declared of an entity type, by the names that are written.
    pub(crate) fn as_written(alloc: Global, written: json_schema::EntityType<RawName>) -> Self
        ensures { (namespace : Option PlainName)
            → fragment_body Raw (raw_reference namespace) result
            ≡ raw_entity_body namespace written }
    {
        match (written.kind, written.external) {
            (EntityTypeKind::Standard(standard), false) => EntityTypeFragment::Standard {
                attributes: standard.shape,
                parents: standard.member_of_types,
                tags: standard.tags,
            },
            (EntityTypeKind::Standard(standard), true) => EntityTypeFragment::External {
                parents: standard.member_of_types,
            },
            (EntityTypeKind::Enum { choices }, false) => EntityTypeFragment::Enum(choices),
            (EntityTypeKind::Enum { .. }, true) => EntityTypeFragment::External {
                parents: Vec::new(alloc),
            },
        }
    }
}

/// The type of tags, if one is written in a namespace.
fn taken_tags<N: TakenOver>(
    alloc: Global,
    namespace: Option<&InternalName>,
    tags: Option<Type<RawName>>,
) -> M<Option<Type<N>>>
    ensures { IfOk result (λ it.
        option_map (type_expr N (N.refer (namespace_name namespace.entry))) it
        ≡ option_map (raw_expr (namespace_name namespace.entry)) tags) }
{
    match tags {
        None => Ok(None),
        Some(ty) => Ok(Some(N::taken_type(alloc, namespace, ty)?)),
    }
}

impl<N: TakenOver> EntityTypeFragment<N> {
    /// What is declared of an entity type that is written in a namespace.
    pub(crate) fn taken_over(
        alloc: Global,
        namespace: Option<&InternalName>,
        written: json_schema::EntityType<RawName>,
    ) -> M<Self>
        ensures { IfOk result (λ it.
            fragment_body N (N.refer (namespace_name namespace.entry)) it
            ≡ raw_entity_body (namespace_name namespace.entry) written) }
    {
        match EntityTypeFragment::as_written(alloc, written) {
            EntityTypeFragment::Standard {
                attributes,
                parents,
                tags,
            } => {
                let parents = N::taken_names(alloc, namespace, parents)?;
                let attributes = N::taken_type(alloc, namespace, attributes.0)?;
                let tags = taken_tags::<N>(alloc, namespace, tags)?;
                Ok(EntityTypeFragment::Standard {
                    attributes: AttributesOrContext(attributes),
                    parents,
                    tags,
                })
            }
            EntityTypeFragment::Enum(choices) => Ok(EntityTypeFragment::Enum(choices)),
            EntityTypeFragment::External { parents } => {
                let parents = N::taken_names(alloc, namespace, parents)?;
                Ok(EntityTypeFragment::External { parents })
            }
        }
    }
}

/// The full name of an entity type that is declared in a namespace, which must be neither reserved
/// nor that of actions' types.
pub(crate) fn entity_type_name(
    alloc: Global,
    namespace: Option<&InternalName>,
    id: UnreservedId,
    loc: Option<Loc>,
) -> Result<EntityType, SchemaError>
    ensures name { IfOk result (λ ty.
        type_name ty ≡ name_within (namespace_name namespace.entry) (unreserved_id_text id)) }
    ensures no_action { OnOk result
        (¬ IsActionType (name_within (namespace_name namespace.entry) (unreserved_id_text id))) }
    ensures unreserved { OnOk result
        (¬ Contains (path_within (namespace_name namespace.entry)) reserved_word) }
    ensures fault { IfErr result (λ error. IsEntityTypeNameFault
        (namespace_name namespace.entry) (unreserved_id_text id) (fault_of error)) }
{
    let name = full_name(alloc, namespace, id.into_id(), loc)?;
    let ty = match EntityType::from_internal(name) {
        Ok(ty) => ty,
        Err(name) => return Err(SchemaError::ReservedName(name)),
    };
    if ty.is_action() {
        let name = ty.into_name().into_internal();
        return Err(SchemaError::ActionEntityTypeDeclared(name));
    }
    Ok(ty)
}
