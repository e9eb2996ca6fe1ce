//! The entities of the actions of a schema.

ghost use Rattle.std.specs.Prelude.{◌≡◌, ◌≢◌, IfOk, List, OnOk, map};
ghost use Rattle.cedar_schema_elements.specs.Words.{AreActionEntities, IsEntityOf, IsAncestor, PlainName, SchemaEntityType, entities_of, plain_action_entity, schema_with, uid_of, upper_set};
ghost use Rattle.cedar_ast.specs.declared.entity_uid.EntityUID.{EntityUID as Key};

use crate::action_id::ValidatorActionId;
use crate::ancestors::{Ancestors, upper_sets};
use cedar_ast::{Entities, Entity, EntityUID, M};
use cedar_table::Table;
use std::alloc::Global;
use std::collections::{BTreeMap, BTreeSet};

/// The entity of an action, without attributes and tags, just below the actions above it, which are
/// taken out.
fn action_entity(alloc: Global, ancestors: &mut Ancestors<EntityUID>, uid: &EntityUID) -> M<Entity>
    ensures entity { IfOk result (λ entity.
        IsEntityOf (IsAncestor ⟦<EntityUID as Ord>⟧.cmp uid_of ancestors.old uid.now)
        (uid_of uid.now)
        (plain_action_entity entity)) }
    ensures others { OnOk result ((key : Key) → uid_of key ≢ uid_of uid.now
        → upper_set ⟦<EntityUID as Ord>⟧.cmp ancestors.new key
        ≡ upper_set ⟦<EntityUID as Ord>⟧.cmp ancestors.old key) }
{
    let ancestors = match ancestors.remove(uid) {
        Some(ancestors) => ancestors,
        None => BTreeSet::new(alloc),
    };
    Ok(Entity::new(
        uid.clone()?,
        BTreeMap::new(alloc),
        BTreeMap::new(alloc),
        ancestors,
    ))
}

/// The entities of the actions of a schema: one for each action that is defined, without attributes
/// and tags, just below the actions that list it among their descendants, external ones too. Out
/// of memory is the only refusal.
pub fn action_entities(alloc: Global, actions: &Table<EntityUID, ValidatorActionId>) -> M<Entities>
    ensures { IfOk result (λ entities. (types : List (PlainName × SchemaEntityType))
        → AreActionEntities (schema_with types actions.now.entries
        (map plain_action_entity (entities_of entities)))) }
{
    let mut ancestors = upper_sets(alloc, actions)?;
    let mut entities = Entities::new(alloc);
    for (uid, action) in actions {
        if !action.is_external() {
            entities.insert(action_entity(alloc, &mut ancestors, uid)?)?;
        }
    }
    Ok(entities)
}
