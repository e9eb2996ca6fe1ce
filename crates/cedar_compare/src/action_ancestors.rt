//! What stands above actions in one of two versions alone.

ghost use Rattle.std.specs.Prelude.{◌↔◌, ◌∷◌, List, Contains, IfOk, IsTrue, OnOk};
ghost use Rattle.cedar_compare.specs.Words.{AreActionAncestors, AreActionAncestorsSoFar, AreVersions, IsKeyed, ListsDescendantAction, PlainUid, action_of, new_of, old_of, schema_of, uid_of};

use crate::keeping::keep;
use crate::looking_up::find_action;
use crate::versions::Versions;
use cedar_ast::{EntityUID, M};
use cedar_schema::{TCNode, ValidatorActionId, ValidatorSchema};
use std::collections::BTreeMap;

/// For some actions an action each that stands above them in one version alone.
pub(crate) type ActionAncestors = BTreeMap<EntityUID, EntityUID>;

/// Whether a schema lists an action below another.
fn lists(schema: &ValidatorSchema, lower: &EntityUID, upper: &EntityUID) -> bool
    requires { IsKeyed (schema_of schema.now) }
    ensures { IsTrue result
        ↔ ListsDescendantAction (schema_of schema.now) (uid_of lower.now) (uid_of upper.now) }
{
    match find_action(schema, upper) {
        Some(action) => action.has_edge_to(lower),
        None => false,
    }
}

/// Keeps an action for each descendant of it that another schema doesn't list below it, where none
/// is kept yet.
fn add_descendants(
    ancestors: &mut ActionAncestors,
    one: &ValidatorSchema,
    other: &ValidatorSchema,
    uid: &EntityUID,
    action: &ValidatorActionId,
) -> M<()>
    requires one { IsKeyed (schema_of one.now) }
    requires other { IsKeyed (schema_of other.now) }
    requires action { Contains (schema_of one.now).actions (uid_of uid.now, action_of action.now) }
    ensures reported { OnOk result ((left : List PlainUid)
        → AreActionAncestorsSoFar (schema_of one.now) (schema_of other.now)
        (λ lower upper. Contains (uid_of uid.now ∷ left) upper) ancestors.old
        → AreActionAncestorsSoFar (schema_of one.now) (schema_of other.now)
        (λ lower upper. Contains left upper) ancestors.new) }
    ensures kept { OnOk result (AreActionAncestorsSoFar (schema_of other.now) (schema_of one.now)
        (λ lower upper. ⊥) ancestors.old
        → AreActionAncestorsSoFar (schema_of other.now) (schema_of one.now) (λ lower upper. ⊥)
        ancestors.new) }
{
    for lower in action.descendants() {
        if lists(other, lower, uid) {
            continue;
        }
        if ancestors.contains_key(lower) {
            continue;
        }
        keep(ancestors, lower.clone()?, uid.clone()?)?;
    }
    Ok(())
}

/// Keeps an action for each descendant of each action of a schema that another schema doesn't list
/// below it, where none is kept yet.
fn add_unlisted(
    ancestors: &mut ActionAncestors,
    one: &ValidatorSchema,
    other: &ValidatorSchema,
) -> M<()>
    requires one { IsKeyed (schema_of one.now) }
    requires other { IsKeyed (schema_of other.now) }
    ensures reported { OnOk result (AreActionAncestorsSoFar (schema_of one.now) (schema_of
        other.now)
        (λ lower upper. Unit {0}) ancestors.old
        → AreActionAncestorsSoFar (schema_of one.now) (schema_of other.now) (λ lower upper. ⊥)
        ancestors.new) }
    ensures kept { OnOk result (AreActionAncestorsSoFar (schema_of other.now) (schema_of one.now)
        (λ lower upper. ⊥) ancestors.old
        → AreActionAncestorsSoFar (schema_of other.now) (schema_of one.now) (λ lower upper. ⊥)
        ancestors.new) }
{
    for uid in one.actions() {
        if let Some(action) = find_action(one, uid) {
            add_descendants(ancestors, one, other, uid, action)?;
        }
    }
    Ok(())
}

/// For each action above which others stand in the one version than in the other, such an action.
pub(crate) fn action_ancestors(versions: &Versions<'_>) -> M<ActionAncestors>
    requires { AreVersions versions.now }
    ensures { IfOk result (AreActionAncestors (old_of versions.now) (new_of versions.now)) }
{
    let mut ancestors = BTreeMap::new(versions.alloc);
    add_unlisted(&mut ancestors, versions.old, versions.new)?;
    add_unlisted(&mut ancestors, versions.new, versions.old)?;
    Ok(ancestors)
}
