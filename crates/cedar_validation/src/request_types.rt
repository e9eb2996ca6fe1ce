//! What is refused of principals, resources and descendants that are named.

ghost use Rattle.std.specs.Prelude.{◌≡◌, ◌⊎◌, [], ◌∷◌, Contains, IfErr, OnOk, map};
ghost use Rattle.cedar_validation.specs.Words.{ArePlaced, HasAction, HasEntityType, HasKey, IsMisplaced, IsValidationFault, MatchOption, PlainName, PlainUid, SchemaAction, action_of, fault_of, out_of_memory, plain_parts, type_name, undeclared_action_descendant, undeclared_entity_types};

use crate::known::undeclared;
use crate::parts::Parts;
use cedar_ast::{EntityType, QuickHash};
use cedar_schema_elements::{RequestTypes, ValidatorActionId};
use cedar_schema_semantics::SchemaError;
use cedar_table::Table;
use std::alloc::Global;
use std::collections::btree_set;
use std::hash::Hash;

/// The first of some keys under which nothing stands in a map.
fn missing<'a, K: Ord + Hash + QuickHash, V>(
    map: &Table<K, V>,
    keys: btree_set::Iter<'a, K>,
) -> Option<&'a K>
    ensures { MatchOption result ((key : K) → Contains keys.entry key → HasKey K.cmp map.now key)
        (λ key. Contains keys.entry key.now × ¬ HasKey K.cmp map.now key.now) }
{
    for key in keys {
        if !map.contains_key(key) {
            return Some(key);
        }
    }
    None
}

/// Refuses an entity type that isn't one of the schema.
pub(crate) fn check_declared(
    alloc: Global,
    parts: &Parts,
    names: btree_set::Iter<'_, EntityType>,
) -> Result<(), SchemaError>
    ensures sound { OnOk result ((name : PlainName) → Contains (map type_name names.entry) name
        → HasEntityType (plain_parts parts.now) name) }
    ensures fault { IfErr result (λ error. (fault_of error ≡ out_of_memory)
        ⊎ ((name : PlainName) × (fault_of error ≡ undeclared_entity_types (name ∷ []))
        × Contains (map type_name names.entry) name
        × ¬ HasEntityType (plain_parts parts.now) name)) }
{
    match missing(&parts.entity_types, names) {
        Some(name) => Err(undeclared(alloc, name)?),
        None => Ok(()),
    }
}

/// Refuses a principal or a resource that isn't an entity type of the schema.
fn check_requests(alloc: Global, parts: &Parts, types: RequestTypes<'_>) -> Result<(), SchemaError>
    ensures sound { OnOk result ((name : PlainName) → Contains (map type_name types.entry) name
        → HasEntityType (plain_parts parts.now) name) }
    ensures fault { IfErr result (λ error. (fault_of error ≡ out_of_memory)
        ⊎ ((name : PlainName) × (fault_of error ≡ undeclared_entity_types (name ∷ []))
        × Contains (map type_name types.entry) name
        × ¬ HasEntityType (plain_parts parts.now) name)) }
{
    for ty in types {
        if !parts.entity_types.contains_key(ty) {
            return Err(undeclared(alloc, ty)?);
        }
    }
    Ok(())
}

/// Refuses a descendant of an action that is no action of the schema.
fn check_descendants(parts: &Parts, action: &ValidatorActionId) -> Result<(), SchemaError>
    ensures sound { OnOk result ((uid : PlainUid) → Contains (action_of action.now).descendants uid
        → HasAction (plain_parts parts.now) uid) }
    ensures fault { IfErr result (λ error. (fault_of error ≡ out_of_memory)
        ⊎ ((uid : PlainUid) × (fault_of error ≡ undeclared_action_descendant uid)
        × Contains (action_of action.now).descendants uid
        × ¬ HasAction (plain_parts parts.now) uid)) }
{
    match missing(&parts.actions, action.descendants()) {
        Some(lower) => Err(SchemaError::UndeclaredActionsDescendant(lower.clone()?)),
        None => Ok(()),
    }
}

/// Refuses an action with such a descendant, or with a principal or a resource that isn't an entity
/// type of the schema.
fn check_action(alloc: Global, parts: &Parts, action: &ValidatorActionId) -> Result<(), SchemaError>
    ensures sound { OnOk result (ArePlaced (plain_parts parts.now) (action_of action.now)) }
    ensures fault { IfErr result (λ error.
        IsMisplaced (plain_parts parts.now) (action_of action.now) (fault_of error)) }
{
    check_requests(alloc, parts, action.principals())?;
    check_requests(alloc, parts, action.resources())?;
    check_descendants(parts, action)
}

/// Checks the principals, resources and descendants of each action.
pub(crate) fn check_actions(alloc: Global, parts: &Parts) -> Result<(), SchemaError>
    ensures sound { OnOk result ((entry : PlainUid × SchemaAction)
        → Contains (plain_parts parts.now).actions entry
        → ArePlaced (plain_parts parts.now) entry.1) }
    ensures fault { IfErr result (λ error.
        IsValidationFault (plain_parts parts.now) (fault_of error)) }
{
    for (_uid, action) in &parts.actions {
        check_action(alloc, parts, action)?;
    }
    Ok(())
}
