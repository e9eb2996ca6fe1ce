//! What is asked of a schema that was put together by hand.

use crate::by_hand::chain;
use crate::extensions::no_extensions;
use crate::names::{action_uid, entity_type};
use crate::scenario::Question;
use crate::stop::{Stop, refused_where};
use crate::typed::union;
use cedar_schema::below::M;
use cedar_schema::lookup::KnownAttrs;
use cedar_schema::{Type, ValidatorSchema};
use schema_lines::{lines_of, uid_text};
use std::alloc::Global;

/// The entity types in the first, one a line.
fn types_in(alloc: Global, schema: &ValidatorSchema) -> Result<String, Stop> {
    let ty = entity_type(alloc, 10)?;
    let mut text = String::new(alloc);
    for ty in schema.get_entity_types_in(alloc, &ty)? {
        text.push_str(format!(in alloc; "{ty}\n")?.as_str())?;
    }
    Ok(text)
}

/// The actions in those of an action above another, one a line.
fn actions_in(alloc: Global, schema: &ValidatorSchema) -> Result<String, Stop> {
    let uids = vec![in alloc; action_uid(alloc, "all")?]?;
    let found = schema
        .get_actions_in_set(alloc, &uids)?
        .ok_or(Stop::Changed)?;
    let mut text = String::new(alloc);
    for uid in found {
        text.push_str(format!(in alloc; "{uid}\n")?.as_str())?;
    }
    Ok(text)
}

/// The uids of the entities of the actions with how many are above each, one a line.
fn action_entities(alloc: Global, schema: &ValidatorSchema) -> M<String> {
    let entities = schema.action_entities(alloc, &no_extensions(alloc))?;
    let mut text = String::new(alloc);
    for entity in entities.iter() {
        let uid = uid_text(alloc, entity.uid())?;
        let above = entity.ancestors().count();
        text.push_str(format!(in alloc; "{uid} below {above}\n")?.as_str())?;
    }
    Ok(text)
}

/// The leaves of all types, one a line. After a fault nothing more may come.
fn leaves(alloc: Global, schema: &ValidatorSchema) -> Result<String, Stop> {
    let mut text = String::new(alloc);
    let mut leaves = schema.leaf_types(alloc)?;
    for leaf in leaves.by_ref() {
        let Ok(leaf) = leaf else {
            return Err(refused_where(leaves.next().is_none()));
        };
        text.push_str(format!(in alloc; "{leaf}\n")?.as_str())?;
    }
    Ok(text)
}

/// The attributes that are known of a union of two entity types.
fn known_attributes(alloc: Global, schema: &ValidatorSchema) -> Result<String, Stop> {
    let Type::Entity(kind) = union(alloc, 10..12)? else {
        return Err(Stop::Changed);
    };
    let attributes = kind.all_known_attrs(alloc, schema)?;
    Ok(format!(in alloc; "{attributes}\n")?)
}

/// The lines of a copy of a schema, which is to be equal to it.
fn copied(alloc: Global, schema: &ValidatorSchema) -> Result<String, Stop> {
    let copy = schema.clone()?;
    if copy == *schema {
        Ok(lines_of(alloc, &copy)?)
    } else {
        Err(Stop::Changed)
    }
}

/// What the chain answers to a question.
pub(crate) fn answer(alloc: Global, question: Question) -> Result<String, Stop> {
    let schema = chain(alloc)?;
    match question {
        Question::TypesIn => types_in(alloc, &schema),
        Question::ActionsIn => actions_in(alloc, &schema),
        Question::ActionEntities => Ok(action_entities(alloc, &schema)?),
        Question::Leaves => leaves(alloc, &schema),
        Question::KnownAttributes => known_attributes(alloc, &schema),
        Question::Copy => copied(alloc, &schema),
    }
}
