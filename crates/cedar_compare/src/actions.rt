//! What a new version keeps of an action.

ghost use Rattle.std.specs.Prelude.{◌≡◌, ◌↔◌, IfOk, IsTrue, map};
ghost use Rattle.std.specs.Option.{option_map};
ghost use Rattle.cedar_compare.specs.Words.{AreActionAncestors, AreVersions, DefinesAction, IsActionAnswer, IsAnswer, IsEntityOfAction, IsKeyed, IsReal, SameItems, action_subject, entity_ancestors, entity_uid, new_of, old_of, plain_action_entity, plain_cause, plain_difference, schema_of, uid_of};

use crate::action_ancestors::ActionAncestors;
use crate::bare::is_bare_of_type;
use crate::difference::{Cause, Difference};
use crate::looking_up::find_action;
use crate::versions::Versions;
use cedar_ast::{Entity, EntityUID, M};
use cedar_schema::ValidatorSchema;
use std::collections::{BTreeMap, BTreeSet};

/// The ancestors of an entity.
fn ancestors_of(versions: &Versions<'_>, entity: &Entity) -> M<BTreeSet<EntityUID>>
    ensures { IfOk result (λ ancestors.
        SameItems (map uid_of ancestors.keys) (entity_ancestors entity.now)) }
{
    let mut ancestors = BTreeSet::new(versions.alloc);
    for uid in entity.ancestors() {
        let _new = ancestors.insert(uid.clone()?)?;
    }
    Ok(ancestors)
}

/// The entity of the same action.
fn copied(versions: &Versions<'_>, entity: &Entity) -> M<Entity>
    requires { IsEntityOfAction (old_of versions.now) (plain_action_entity entity.now) }
    ensures uid { IfOk result (λ copy. entity_uid copy ≡ entity_uid entity.now) }
    ensures real { IfOk result (λ copy. IsReal (plain_action_entity copy)) }
    ensures action { IfOk result (λ copy.
        IsEntityOfAction (old_of versions.now) (plain_action_entity copy)) }
{
    let uid = entity.uid().clone()?;
    let ancestors = ancestors_of(versions, entity)?;
    let attributes = BTreeMap::new(versions.alloc);
    let tags = BTreeMap::new(versions.alloc);
    Ok(Entity::new(uid, attributes, tags, ancestors))
}

/// Whether a schema defines an action.
fn is_defined(schema: &ValidatorSchema, uid: &EntityUID) -> bool
    requires { IsKeyed (schema_of schema.now) }
    ensures { IsTrue result ↔ DefinesAction (schema_of schema.now) (uid_of uid.now) }
{
    match find_action(schema, uid) {
        Some(action) => !action.is_external(),
        None => false,
    }
}

/// Why the entity of an action may be lost, if the new version doesn't define it alike.
fn action_cause(
    versions: &Versions<'_>,
    ancestors: &ActionAncestors,
    uid: &EntityUID,
) -> M<Option<Cause>>
    requires versions { AreVersions versions.now }
    requires ancestors { AreActionAncestors (old_of versions.now) (new_of
        versions.now) ancestors.now }
    ensures { IfOk result (λ found. IsActionAnswer (old_of versions.now) (new_of versions.now)
        (uid_of uid.now) (option_map plain_cause found)) }
{
    if !is_defined(versions.new, uid) {
        return Ok(Some(Cause::Gone));
    }
    match ancestors.get(uid) {
        Some(upper) => Ok(Some(Cause::AncestorAction(upper.clone()?))),
        None => Ok(None),
    }
}

/// What is lost of the entity of an action, if it is.
pub(crate) fn lost_action(
    versions: &Versions<'_>,
    ancestors: &ActionAncestors,
    entity: &Entity,
) -> M<Option<Difference>>
    requires versions { AreVersions versions.now }
    requires ancestors { AreActionAncestors (old_of versions.now) (new_of
        versions.now) ancestors.now }
    requires entity { IsEntityOfAction (old_of versions.now) (plain_action_entity entity.now) }
    ensures { IfOk result (λ found. IsAnswer versions.now.extensions.now (old_of versions.now)
        (new_of versions.now) (action_subject (entity_uid entity.now))
        (option_map plain_difference found)) }
{
    if is_bare_of_type(versions.new, entity) {
        return Ok(None);
    }
    match action_cause(versions, ancestors, entity.uid())? {
        Some(cause) => Ok(Some(Difference::Action {
            witness: copied(versions, entity)?,
            cause,
        })),
        None => Ok(None),
    }
}
