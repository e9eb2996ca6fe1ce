//! The entity types that names of parents, principals and resources stand for.

ghost use Rattle.std.specs.Prelude.{IfErr, IfOk};
ghost use Rattle.cedar_builder.specs.Words.{Entity, IsTypeFault, NamesType, fault_of, held_names, namespace_name, type_name};

use cedar_ast::{EntityType, InternalName};
use cedar_elaboration::undefined_type;
use cedar_name_resolution::defs::{AllDefs, WrittenName};
use cedar_schema_ast::json_schema::ReferenceType;
use cedar_schema_semantics::SchemaError;
use std::alloc::Global;

/// The entity type that a name stands for where it is written in a namespace, which must not be
/// reserved.
pub(crate) fn named_type<N: WrittenName>(
    alloc: Global,
    name: &N,
    namespace: Option<&InternalName>,
    defs: &AllDefs,
) -> Result<EntityType, SchemaError>
    ensures name { IfOk result (λ ty. NamesType (held_names defs.now)
        (N.refer (namespace_name namespace.entry) Entity name.now) (type_name ty)) }
    ensures fault { IfErr result (λ error. IsTypeFault (held_names defs.now)
        (N.refer (namespace_name namespace.entry) Entity name.now) (fault_of error)) }
{
    let kind = ReferenceType::Entity;
    let Some(full) = name.resolved_within(kind, namespace, defs)? else {
        return Err(undefined_type(alloc, name, kind, namespace)?);
    };
    match EntityType::from_internal(full) {
        Ok(ty) => Ok(ty),
        Err(name) => Err(SchemaError::ReservedName(name)),
    }
}
