//! The namespaces and the ids of names.

ghost use Rattle.std.specs.Prelude.{◌≡◌, IfOk, map, Some};
ghost use Rattle.cedar_schema_writer.specs.Words.{IsPathOf, id_text, name_within, plain_name, plain_namespace, type_name, unreserved_id_text};

use cedar_ast::{EntityType, Id, InternalName, M, Name, UnreservedId};
use std::alloc::Global;

/// Equal identifiers in the same order.
fn clone_path(alloc: Global, path: &[Id]) -> M<Vec<Id>>
    ensures { IfOk result (λ copy. map id_text copy.items ≡ map id_text path.now) }
{
    let mut copy = Vec::new(alloc);
    for part in path {
        copy.push(part.clone()?)?;
    }
    Ok(copy)
}

/// The namespace that a name stands in: its path, as a name. None is the empty namespace.
pub(crate) fn namespace_of(alloc: Global, name: &Name) -> M<Option<Name>>
    ensures { IfOk result (λ namespace.
        IsPathOf (plain_namespace namespace) (plain_name name.now).path) }
{
    match name.path() {
        [] => Ok(None),
        [outer @ .., base] => {
            let path = clone_path(alloc, outer)?;
            Ok(Name::new(InternalName::new(base.clone()?, path, None)))
        }
    }
}

/// The base name, which isn't reserved.
pub(crate) fn base_id(alloc: Global, name: &Name) -> M<UnreservedId>
    ensures { IfOk result (λ id. unreserved_id_text id ≡ (plain_name name.now).base) }
{
    match UnreservedId::new(name.basename().as_str().to_string(alloc)?) {
        Some(id) => Ok(id),
        None => unreachable!(),
    }
}

/// The name of an entity type with the base name of another, in a namespace.
pub(crate) fn within(alloc: Global, namespace: &Name, name: &Name) -> M<EntityType>
    ensures { IfOk result (λ ty. type_name ty
        ≡ name_within (Some (plain_name namespace.now)) (plain_name name.now).base) }
{
    let mut path = clone_path(alloc, namespace.path())?;
    path.push(namespace.basename().clone()?)?;
    match Name::new(InternalName::new(name.basename().clone()?, path, None)) {
        Some(name) => Ok(EntityType::new(name)),
        None => unreachable!(),
    }
}
