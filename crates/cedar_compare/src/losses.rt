//! What a new version of a schema takes away.

ghost use Rattle.std.specs.Prelude.{◌≡◌, [], IfOk, map};
ghost use Rattle.cedar_compare.specs.Words.{AreActionEntities, AreAllRequests, AreAnswers, AreLosses, AreVersions, Keeps, action_entries, action_subjects, entities_of, new_of, old_of, plain_action_entity, plain_difference, schema_with, type_subjects};

use crate::action_ancestors::action_ancestors;
use crate::actions::lost_action;
use crate::ancestors::lost_ancestors;
use crate::difference::Difference;
use crate::entity_types::lost_of_type;
use crate::requests::lost_of_action;
use crate::versions::Versions;
use cedar_ast::{Entities, M};

/// What is lost of the entity types.
fn lost_types(versions: &Versions<'_>) -> M<Vec<Difference>>
    requires { AreVersions versions.now }
    ensures { IfOk result (λ lost. AreAnswers versions.now.extensions.now (old_of versions.now)
        (new_of versions.now) (type_subjects (old_of versions.now))
        (map plain_difference lost.items)) }
{
    let ancestors = lost_ancestors(versions)?;
    let mut lost = Vec::new(versions.alloc);
    for name in versions.old.entity_type_names() {
        if let Some(difference) = lost_of_type(versions, &ancestors, name)? {
            lost.push(difference)?;
        }
    }
    Ok(lost)
}

/// What is lost of the entities of actions, which are these.
fn lost_actions(versions: &Versions<'_>, entities: &Entities) -> M<Vec<Difference>>
    requires versions { AreVersions versions.now }
    requires entities { AreActionEntities (schema_with (old_of versions.now).entity_types
        (action_entries versions.now.old.now)
        (map plain_action_entity (entities_of entities.now))) }
    ensures { IfOk result (λ lost. AreAnswers versions.now.extensions.now (old_of versions.now)
        (new_of versions.now) (action_subjects (entities_of entities.now))
        (map plain_difference lost.items)) }
{
    let ancestors = action_ancestors(versions)?;
    let mut lost = Vec::new(versions.alloc);
    for entity in entities.iter() {
        if let Some(difference) = lost_action(versions, &ancestors, entity)? {
            lost.push(difference)?;
        }
    }
    Ok(lost)
}

/// What is lost of the requests.
fn lost_requests(versions: &Versions<'_>) -> M<Vec<Difference>>
    requires { AreVersions versions.now }
    ensures { IfOk result (λ lost. AreAllRequests versions.now.extensions.now
        (old_of versions.now) (new_of versions.now) (map plain_difference lost.items)) }
{
    let mut lost = Vec::new(versions.alloc);
    for uid in versions.old.actions() {
        let mut more = lost_of_action(versions, uid)?;
        lost.append(&mut more)?;
    }
    Ok(lost)
}

/// What is lost, where these are the entities of the actions of the old version.
pub(crate) fn losses(versions: &Versions<'_>, entities: &Entities) -> M<Vec<Difference>>
    requires versions { AreVersions versions.now }
    requires entities { AreActionEntities (schema_with (old_of versions.now).entity_types
        (action_entries versions.now.old.now)
        (map plain_action_entity (entities_of entities.now))) }
    ensures losses { IfOk result (λ lost. AreLosses versions.now.extensions.now
        (old_of versions.now) (new_of versions.now) (map plain_difference lost.items)) }
    ensures kept { IfOk result (λ lost. (lost.items ≡ [])
        → Keeps versions.now.extensions.now (old_of versions.now) (new_of versions.now)) }
{
    let mut lost = lost_types(versions)?;
    let mut actions = lost_actions(versions, entities)?;
    lost.append(&mut actions)?;
    let mut requests = lost_requests(versions)?;
    lost.append(&mut requests)?;
    Ok(lost)
}
