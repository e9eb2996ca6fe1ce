//! What stands above and below entity types and actions in the hierarchy.

ghost use Rattle.std.specs.Prelude.{◌≡◌, ◌≢◌, ◌↔◌, ◌++◌, ◌∷◌, [], Contains, IfOk, IfSome, IsSome, IsTrue, All, AllPairs, Any, OnOk, map};
ghost use Rattle.std.specs.List.{flat_map};
ghost use Rattle.cedar_queries.specs.Words.{HasActionBelow, IsKnownType, MayBeIn, action_descendants, action_of, descendant_names, descendants_of, groups, plain_action_entry, plain_entry, type_name, types_above, uid_of};

use crate::selected::Selected;
use crate::tests_of_values::{HasDescendant, IsGroup};
use cedar_ast::{EntityType, EntityUID, M};
use cedar_schema_elements::{ValidatorActionId, ValidatorEntityType};
use cedar_table::Table;
use std::alloc::Global;

/// The entity types, each under its name.
pub type EntityTypes = Table<EntityType, ValidatorEntityType>;

/// The actions, each under its uid.
pub type Actions = Table<EntityUID, ValidatorActionId>;

/// The names of the entity types that have descendants of the given one.
pub type Ancestors<'a> = Selected<'a, EntityType, ValidatorEntityType, HasDescendant<'a>>;

/// The uids of actions that have descendants.
pub type ActionGroups<'a> = Selected<'a, EntityUID, ValidatorActionId, IsGroup>;

/// Whether there is an entity type of this name, or the name is one of actions' types.
pub fn is_known_entity_type(types: &EntityTypes, name: &EntityType) -> bool
    ensures { IsTrue result ↔ IsKnownType (map plain_entry types.now.entries) (type_name name.now) }
{
    types.contains_key(name) || name.is_action()
}

/// The names of the entity types that have this one among their descendants, in order, each once;
/// None where there is no entity type of this name.
pub fn ancestors<'a>(types: &'a EntityTypes, ty: &'a EntityType) -> Option<Ancestors<'a>>
    ensures known { IsSome result ↔ Contains (map (λ it. it.0) (map plain_entry types.now.entries))
        (type_name ty.now) }
    ensures names { IfSome result (λ above.
        map type_name above ≡ types_above (type_name ty.now) (map plain_entry types.now.entries)) }
{
    if !types.contains_key(ty) {
        return None;
    }
    Some(Selected::new(types, HasDescendant { descendant: ty }))
}

/// The uids of the actions that have descendants, in order.
pub fn action_groups(actions: &Actions) -> ActionGroups<'_>
    ensures { map uid_of result ≡ groups (map plain_action_entry actions.now.entries) }
{
    Selected::new(actions, IsGroup)
}

/// Adds the names of the descendants of an entity type, each once.
fn add_descendants<'a>(
    names: &mut Vec<&'a EntityType>,
    entity_type: &'a ValidatorEntityType,
) -> M<()>
    ensures names { OnOk result (map (λ name. type_name name.now) names.new.items
        ≡ map (λ name. type_name name.now) names.old.items ++ descendant_names entity_type.now) }
    ensures once { OnOk result (AllPairs (λ a b. a ≢ b) (descendant_names entity_type.now)) }
{
    for descendant in &entity_type.descendants {
        names.push(descendant)?;
    }
    Ok(())
}

/// The names of the descendants of an entity type, in some order, each once, and then its own,
/// which stands there twice where it is a descendant of itself. Of an entity type that isn't there
/// just its own name. Out of memory is the only refusal.
pub fn entity_types_in<'a>(
    alloc: Global,
    types: &'a EntityTypes,
    ty: &'a EntityType,
) -> M<Vec<&'a EntityType>>
    ensures names { IfOk result (λ names. map (λ name. type_name name.now) names.items
        ≡ descendants_of (type_name ty.now) (map plain_entry types.now.entries)
        ++ type_name ty.now ∷ []) }
    ensures once { IfOk result (λ _.
        AllPairs (λ a b. a ≢ b) (descendants_of (type_name ty.now)
        (map plain_entry types.now.entries))) }
{
    let mut names = Vec::new(alloc);
    if let Some(entity_type) = types.get(ty) {
        add_descendants(&mut names, entity_type)?;
    }
    names.push(ty)?;
    Ok(names)
}

/// Adds the uids of the descendants of an action, and then its own.
fn add_actions_in<'a>(
    uids: &mut Vec<&'a EntityUID>,
    uid: &'a EntityUID,
    action: &'a ValidatorActionId,
) -> M<()>
    ensures { OnOk result (map (λ it. uid_of it.now) uids.new.items
        ≡ map (λ it. uid_of it.now) uids.old.items ++ (action_of action.now).descendants
        ++ uid_of uid.now ∷ []) }
{
    for descendant in action.descendants() {
        uids.push(descendant)?;
    }
    uids.push(uid)?;
    Ok(())
}

/// For each of some uids in turn the uids of the descendants of its action, in some order, and then
/// the uid itself, repeats among them; None where one of them is that of no action. Out of memory
/// is the only refusal.
pub fn actions_in_set<'a>(
    alloc: Global,
    actions: &'a Actions,
    uids: &'a [EntityUID],
) -> M<Option<Vec<&'a EntityUID>>>
    ensures known { IfOk result (λ answer. IsSome answer
        ↔ All (λ uid. Contains (map (λ it. it.0) (map plain_action_entry actions.now.entries))
        (uid_of uid)) uids.now) }
    ensures uids { IfOk result (λ answer. IfSome answer (λ all. map (λ it. uid_of it.now) all.items
        ≡ flat_map (λ uid. action_descendants (uid_of uid)
        (map plain_action_entry actions.now.entries) ++ uid_of uid ∷ []) uids.now)) }
{
    let mut all = Vec::new(alloc);
    for uid in uids {
        match actions.get(uid) {
            Some(action) => add_actions_in(&mut all, uid, action)?,
            None => return Ok(None),
        }
    }
    Ok(Some(all))
}

/// Whether an action has a descendant of the type.
fn has_descendant_of(action: &ValidatorActionId, ty: &EntityType) -> bool
    ensures { IsTrue result ↔ Any (λ below.
        below.ty ≡ type_name ty.now) (action_of action.now).descendants }
{
    for below in action.descendants() {
        if below.entity_type() == ty {
            return true;
        }
    }
    false
}

/// Whether some action of the one type has a descendant of the other.
fn has_action_below(actions: &Actions, upper: &EntityType, lower: &EntityType) -> bool
    ensures { IsTrue result ↔ HasActionBelow (map plain_action_entry actions.now.entries)
        (type_name upper.now) (type_name lower.now) }
{
    for (uid, action) in actions {
        if uid.entity_type() == upper && has_descendant_of(action, lower) {
            return true;
        }
    }
    false
}

/// Whether the one entity type is a descendant of the other.
fn is_descendant(types: &EntityTypes, lower: &EntityType, upper: &EntityType) -> bool
    ensures { IsTrue result ↔ Contains
        (descendants_of (type_name upper.now) (map plain_entry types.now.entries))
        (type_name lower.now) }
{
    match types.get(upper) {
        Some(ty) => ty.has_descendant_entity_type(lower),
        None => false,
    }
}

/// Whether entities of the one type may be among or below those of the other.
fn may_be_in(types: &EntityTypes, actions: &Actions, lower: &EntityType, upper: &EntityType) -> bool
    ensures { IsTrue result ↔ MayBeIn (map plain_entry types.now.entries)
        (map plain_action_entry actions.now.entries)
        (type_name lower.now) (type_name upper.now) }
{
    if lower == upper || is_descendant(types, lower, upper) {
        return true;
    }
    has_action_below(actions, upper, lower)
}

/// Whether entities of a type may be among or below those of some of the others.
fn may_be_in_any(
    types: &EntityTypes,
    actions: &Actions,
    lower: &EntityType,
    ancestors: &[EntityType],
) -> bool
    ensures { IsTrue result ↔ Any (λ upper. MayBeIn (map plain_entry types.now.entries)
        (map plain_action_entry actions.now.entries) (type_name lower.now)
        (type_name upper)) ancestors.now }
{
    for upper in ancestors {
        if may_be_in(types, actions, lower, upper) {
            return true;
        }
    }
    false
}

/// Whether entities of some of the one types may be among or below those of some of the others: one
/// of the first is one of the second, or a descendant of it, or the type of a descendant of an
/// action of it.
pub fn any_descendent_of(
    types: &EntityTypes,
    actions: &Actions,
    lowers: &[EntityType],
    ancestors: &[EntityType],
) -> bool
    ensures { IsTrue result ↔ Any (λ lower.
        Any (λ upper. MayBeIn (map plain_entry types.now.entries)
        (map plain_action_entry actions.now.entries) (type_name lower)
        (type_name upper)) ancestors.now) lowers.now }
{
    for lower in lowers {
        if may_be_in_any(types, actions, lower, ancestors) {
            return true;
        }
    }
    false
}
