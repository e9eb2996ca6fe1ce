//! The entity types that the principals and the resources of actions name.

ghost use Rattle.std.specs.Prelude.{Contains, IfErr, IfOk, OnOk, map};
ghost use Rattle.cedar_builder.specs.Words.{AreNamed, Entity, IsPlaceFault, IsRequestTypeFault, NamesType, PlainName, Reference, ResolvesTo, fault_of, held_names, namespace_name, names_in, set_names, type_name};

use crate::named_type::named_type;
use cedar_ast::{EntityType, InternalName, NonEmpty};
use cedar_name_resolution::defs::{AllDefs, WrittenName};
use cedar_schema_elements::{TypeSet, ValidatorEntityType};
use cedar_schema_semantics::SchemaError;
use cedar_table::Table;
use std::alloc::Global;

/// The entity type that a name stands for where it is written in a namespace, which must be one of
/// these.
fn declared_type<N: WrittenName>(
    alloc: Global,
    name: &N,
    namespace: Option<&InternalName>,
    entity_types: &Table<EntityType, ValidatorEntityType>,
    defs: &AllDefs,
) -> Result<EntityType, SchemaError>
    ensures name { IfOk result (λ ty. NamesType (held_names defs.now)
        (N.refer (namespace_name namespace.entry) Entity name.now) (type_name ty)) }
    ensures declared { IfOk result (λ ty. Contains (names_in entity_types.now) (type_name ty)) }
    ensures fault { IfErr result (λ error. IsPlaceFault (held_names defs.now)
        (names_in entity_types.now) (N.refer (namespace_name namespace.entry) Entity name.now)
        (fault_of error)) }
{
    let ty = named_type(alloc, name, namespace, defs)?;
    if entity_types.contains_key(&ty) {
        return Ok(ty);
    }
    Err(SchemaError::UndeclaredEntityTypes(NonEmpty {
        head: ty,
        tail: Vec::new(alloc),
    }))
}

/// The entity types that some names stand for where they are written in a namespace, each of which
/// must be one of these.
pub(crate) fn declared_types<N: WrittenName>(
    alloc: Global,
    names: &[N],
    namespace: Option<&InternalName>,
    entity_types: &Table<EntityType, ValidatorEntityType>,
    defs: &AllDefs,
) -> Result<TypeSet, SchemaError>
    ensures names { IfOk result (λ types. AreNamed (held_names defs.now)
        (map (N.refer (namespace_name namespace.entry) Entity) names.now)
        (set_names types)) }
    ensures declared { OnOk result ((reference : Reference)
        → Contains (map (N.refer (namespace_name namespace.entry) Entity) names.now) reference
        → (name : PlainName) × ResolvesTo (held_names defs.now) reference name
        × Contains (names_in entity_types.now) name) }
    ensures fault { IfErr result (λ error.
        IsRequestTypeFault (held_names defs.now) (names_in entity_types.now)
        (map (N.refer (namespace_name namespace.entry) Entity) names.now) (fault_of error)) }
{
    let mut types = Vec::with_capacity(alloc, names.len())?;
    for name in names {
        types.push(declared_type(alloc, name, namespace, entity_types, defs)?)?;
    }
    Ok(TypeSet::of(types))
}
