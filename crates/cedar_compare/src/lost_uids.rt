//! Uids that a new version of a schema loses.

ghost use Rattle.std.specs.Prelude.{◌↔◌, ◌⊎◌, IfOk, IsTrue, OnOk};
ghost use Rattle.cedar_compare.specs.Words.{AreLostSoFar, AreLostUids, EnumeratesNone, Exists, IsActionType, IsLostIn, schema_of, uid_of};

use crate::existing::uid_outside;
use crate::keeping::keep;
use cedar_ast::{EntityType, EntityUID, M};
use cedar_schema::ValidatorSchema;
use std::alloc::Global;
use std::collections::BTreeMap;

/// For some entity types a uid each that exists in an old version and not in the new.
pub(crate) type LostUids = BTreeMap<EntityType, EntityUID>;

/// Whether an entity type of a schema is enumerated.
fn enumerates(schema: &ValidatorSchema) -> bool
    ensures { IsTrue result ⊎ EnumeratesNone (schema_of schema.now) }
{
    for ty in schema.entity_types() {
        if ty.is_enumerated() {
            return true;
        }
    }
    false
}

/// For each entity type that loses uids, but for those of actions, one that it loses. It is
/// enumerated in the new version.
fn lost_choices(alloc: Global, old: &ValidatorSchema, new: &ValidatorSchema) -> M<LostUids>
    ensures { IfOk result (AreLostSoFar (schema_of old.now) (schema_of new.now)
        (λ uid. IsActionType uid.ty)) }
{
    let mut lost = BTreeMap::new(alloc);
    for name in new.entity_type_names() {
        if name.is_action() {
            continue;
        }
        if let Some(uid) = uid_outside(alloc, old, new, name)? {
            keep(&mut lost, name.clone()?, uid)?;
        }
    }
    Ok(lost)
}

/// The same, where nothing is looked at unless something is enumerated.
fn lost_if_enumerated(
    alloc: Global,
    old: &ValidatorSchema,
    new: &ValidatorSchema,
    is_enumerated: bool,
) -> M<LostUids>
    requires { IsTrue is_enumerated ⊎ EnumeratesNone (schema_of new.now) }
    ensures { IfOk result (AreLostSoFar (schema_of old.now) (schema_of new.now)
        (λ uid. IsActionType uid.ty)) }
{
    if is_enumerated {
        return lost_choices(alloc, old, new);
    }
    let lost = BTreeMap::new(alloc);
    Ok(lost)
}

/// Whether a uid exists in a schema, of which it may be known that nothing is enumerated there.
fn exists_in(schema: &ValidatorSchema, is_enumerated: bool, uid: &EntityUID) -> bool
    requires { IsTrue is_enumerated ⊎ EnumeratesNone (schema_of schema.now) }
    ensures { IsTrue result ↔ Exists (schema_of schema.now) (uid_of uid.now) }
{
    if !is_enumerated && schema.is_known_action_id(uid) {
        return true;
    }
    schema.entity_exists(uid)
}

/// Whether a uid exists in an old version and not in the new, of which it may be known that nothing
/// is enumerated there.
fn is_lost(
    old: &ValidatorSchema,
    new: &ValidatorSchema,
    is_enumerated: bool,
    uid: &EntityUID,
) -> bool
    requires { IsTrue is_enumerated ⊎ EnumeratesNone (schema_of new.now) }
    ensures { IsTrue result ↔ IsLostIn (schema_of old.now) (schema_of new.now) (uid_of uid.now) }
{
    if exists_in(new, is_enumerated, uid) {
        return false;
    }
    old.entity_exists(uid)
}

/// Keeps for each type of actions that loses one an action that it loses.
fn add_actions(
    lost: &mut LostUids,
    old: &ValidatorSchema,
    new: &ValidatorSchema,
    is_enumerated: bool,
) -> M<()>
    requires { IsTrue is_enumerated ⊎ EnumeratesNone (schema_of new.now) }
    ensures { OnOk result (AreLostSoFar (schema_of old.now) (schema_of new.now)
        (λ uid. IsActionType uid.ty) lost.old
        → AreLostUids (schema_of old.now) (schema_of new.now) lost.new) }
{
    for uid in old.actions() {
        if !is_lost(old, new, is_enumerated, uid) {
            continue;
        }
        if lost.contains_key(uid.entity_type()) {
            continue;
        }
        keep(lost, uid.entity_type().clone()?, uid.clone()?)?;
    }
    Ok(())
}

/// For each entity type that loses uids in the new version, one that it loses.
pub(crate) fn lost_uids(alloc: Global, old: &ValidatorSchema, new: &ValidatorSchema) -> M<LostUids>
    ensures { IfOk result (AreLostUids (schema_of old.now) (schema_of new.now)) }
{
    let is_enumerated = enumerates(new);
    let mut lost = lost_if_enumerated(alloc, old, new, is_enumerated)?;
    add_actions(&mut lost, old, new, is_enumerated)?;
    Ok(lost)
}
