//! Schemas that are put together by hand.

use crate::graphs::Shape;
use crate::names::{entity_type, entity_types, numbered};
use crate::stop::Stop;
use crate::types::{attributes, closed_record};
use cedar_schema::below::{Eid, EntityType, EntityUID};
use cedar_schema::{OpenTag, ValidatorActionId, ValidatorEntityType};
use std::alloc::Global;
use std::ops::Range;

/// The entity type of a number, with others right below it and as many attributes.
fn standard_type(
    alloc: Global,
    number: usize,
    below: Range<usize>,
    count: usize,
) -> Result<ValidatorEntityType, Stop> {
    let name = entity_type(alloc, number)?;
    let below = entity_types(alloc, below)?;
    let attributes = attributes(alloc, 0..count)?;
    Ok(ValidatorEntityType::new_standard(
        alloc,
        name,
        below,
        attributes,
        OpenTag::ClosedAttributes,
        None,
        None,
    )?)
}

/// Entity types with an attribute, each with its descendants right below it in a graph of trees.
pub(crate) fn standard_types(
    alloc: Global,
    count: usize,
) -> Result<Vec<ValidatorEntityType>, Stop> {
    let mut types = Vec::new(alloc);
    for number in 0..count {
        let below = Shape::Trees.right_below(number, count);
        types.push(standard_type(alloc, number, below, 1)?)?;
    }
    Ok(types)
}

/// Entity types without descendants, each of which has one attribute more than the one before it.
pub(crate) fn growing_types(alloc: Global, count: usize) -> Result<Vec<ValidatorEntityType>, Stop> {
    let mut types = Vec::new(alloc);
    for number in 0..count {
        types.push(standard_type(alloc, number, 0..0, number.saturating_add(1))?)?;
    }
    Ok(types)
}

/// The entity type of actions.
fn action_type(alloc: Global) -> Result<EntityType, Stop> {
    Ok(EntityType::from_str(alloc, "Action")?)
}

/// The uid of the action of a number.
pub(crate) fn uid(alloc: Global, number: usize) -> Result<EntityUID, Stop> {
    let eid = Eid(numbered(alloc, "action", number)?);
    Ok(EntityUID::new(action_type(alloc)?, eid, None))
}

/// The action of a number, for requests of the entity type of its number on itself.
fn action(alloc: Global, number: usize) -> Result<ValidatorActionId, Stop> {
    let end = number.saturating_add(1);
    let uid = uid(alloc, number)?;
    let principals = entity_types(alloc, number..end)?;
    let resources = entity_types(alloc, number..end)?;
    let context = closed_record(alloc, 0..1)?;
    Ok(ValidatorActionId::new_defined(
        alloc,
        uid,
        principals,
        resources,
        Vec::new(alloc),
        context,
        None,
    )?)
}

/// Actions, each for requests of the entity type of its number on itself.
pub(crate) fn actions(alloc: Global, count: usize) -> Result<Vec<ValidatorActionId>, Stop> {
    let mut actions = Vec::new(alloc);
    for number in 0..count {
        actions.push(action(alloc, number)?)?;
    }
    Ok(actions)
}
