//! Uids that exist in a schema.

ghost use Rattle.std.specs.Prelude.{◌≡◌, ◌↔◌, IfOk, IfSome, IsTrue, None};
ghost use Rattle.std.specs.Option.{option_map};
ghost use Rattle.cedar_compare.specs.Words.{Exists, HasUidOf, HasUidsHere, HasUidsIn, IsActionType, IsExistingOf, IsUidOfType, IsUidOutside, lub_names, schema_of, ty_of, type_name, uid_of, union_of};

use crate::choices::{id_outside, some_id};
use crate::looking_up::choices_at;
use cedar_ast::{EntityType, EntityUID, M};
use cedar_schema::ValidatorSchema;
use cedar_types::{EntityKind, EntityLUB, Type};
use std::alloc::Global;

/// Whether an action is of a type and exists.
fn is_action_of(schema: &ValidatorSchema, name: &EntityType, uid: &EntityUID) -> bool
    ensures { IsTrue result ↔ IsExistingOf (schema_of schema.now) (type_name name.now)
        (uid_of uid.now) }
{
    if uid.entity_type() == name {
        return schema.entity_exists(uid);
    }
    false
}

/// An action of a type that exists, if there is one.
pub(crate) fn some_action<'a>(
    schema: &'a ValidatorSchema,
    name: &EntityType,
) -> Option<&'a EntityUID>
    requires { IsActionType (type_name name.now) }
    ensures none { result ≡ None → ¬ HasUidOf (Exists (schema_of schema.now))
        (type_name name.now) }
    ensures some { IfSome result (λ uid. IsExistingOf (schema_of schema.now) (type_name name.now)
        (uid_of uid.now)) }
{
    for uid in schema.actions() {
        if is_action_of(schema, name, uid) {
            return Some(uid);
        }
    }
    None
}

/// A uid of an entity type that the schema may have as principal or resource: one of the choices
/// where it is enumerated.
pub(crate) fn some_uid(alloc: Global, schema: &ValidatorSchema, name: &EntityType) -> M<EntityUID>
    ensures { IfOk result (λ uid.
        IsUidOfType (schema_of schema.now) (type_name name.now) (uid_of uid)) }
{
    let eid = some_id(alloc, choices_at(schema, name))?;
    Ok(EntityUID::new(name.clone()?, eid, None))
}

/// A uid of an entity type that exists, if there is one.
pub(crate) fn some_existing(
    alloc: Global,
    schema: &ValidatorSchema,
    name: &EntityType,
) -> M<Option<EntityUID>>
    ensures none { IfOk result (λ found. found ≡ None
        → ¬ HasUidOf (Exists (schema_of schema.now)) (type_name name.now)) }
    ensures some { IfOk result (λ found. IfSome found (λ uid.
        IsExistingOf (schema_of schema.now) (type_name name.now) (uid_of uid))) }
{
    if !name.is_action() {
        return Ok(Some(some_uid(alloc, schema, name)?));
    }
    match some_action(schema, name) {
        Some(uid) => Ok(Some(uid.clone()?)),
        None => Ok(None),
    }
}

/// A uid of a type that the old schema may have and the new may not, if there is one.
pub(crate) fn uid_outside(
    alloc: Global,
    old: &ValidatorSchema,
    new: &ValidatorSchema,
    name: &EntityType,
) -> M<Option<EntityUID>>
    ensures { IfOk result (λ found. IsUidOutside (schema_of old.now) (schema_of new.now)
        (type_name name.now) (option_map uid_of found)) }
{
    let choices = choices_at(old, name);
    match id_outside(alloc, choices, choices_at(new, name))? {
        Some(eid) => Ok(Some(EntityUID::new(name.clone()?, eid, None))),
        None => Ok(None),
    }
}

/// Whether a uid exists of an entity type: of actions not every type has one.
fn has_uid(schema: &ValidatorSchema, name: &EntityType) -> bool
    ensures { IsTrue result ↔ HasUidOf (Exists (schema_of schema.now)) (type_name name.now) }
{
    if !name.is_action() {
        return true;
    }
    some_action(schema, name).is_some()
}

/// Whether a uid exists of each entity type of a union.
fn union_has_uids(schema: &ValidatorSchema, lub: &EntityLUB) -> bool
    ensures { IsTrue result ↔ HasUidsIn (Exists (schema_of schema.now))
        (union_of (lub_names lub.now)) }
{
    for name in lub.iter() {
        if !has_uid(schema, name) {
            return false;
        }
    }
    true
}

/// Whether a uid exists of each entity type of a type, if it is a union.
pub(crate) fn has_uids(schema: &ValidatorSchema, ty: &Type) -> bool
    ensures yes { IsTrue result → HasUidsHere (Exists (schema_of schema.now)) (ty_of ty.now) }
    ensures no { HasUidsIn (Exists (schema_of schema.now)) (ty_of ty.now) → IsTrue result }
{
    match ty {
        Type::Entity(EntityKind::Entity(lub)) => union_has_uids(schema, lub),
        _ => true,
    }
}
