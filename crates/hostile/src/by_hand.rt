//! A schema that is put together by hand: three entity types in a chain, and two actions.

use crate::extensions::no_extensions;
use crate::names::{action_uid, entity_type, entity_types};
use crate::stop::Stop;
use cedar_schema::below::{EntityUID, M};
use cedar_schema::{
    AttributeType, Attributes, OpenTag, Type, ValidatorActionId, ValidatorEntityType,
    ValidatorSchema,
};
use schema_lines::lines_of;
use std::alloc::Global;
use std::ops::Range;
use std::rc::Rc;

/// An attribute of a type, which an entity has to have.
fn attribute(alloc: Global, name: &str, ty: Type) -> M<(String, AttributeType)> {
    let attribute = AttributeType::required_attribute(Rc::new(alloc, ty)?);
    Ok((String::from_str(alloc, name)?, attribute))
}

/// Some attributes: a number, a set of texts, and one whose name has a number.
pub(crate) fn attributes(alloc: Global, number: usize) -> M<Attributes> {
    let own = format!(in alloc; "own{number}")?;
    let texts = Type::set(Rc::new(alloc, Type::primitive_string())?);
    let attributes = vec![in alloc;
        attribute(alloc, own.as_str(), Type::primitive_long())?,
        attribute(alloc, "count", Type::primitive_long())?,
        attribute(alloc, "texts", texts)?,
    ]?;
    Attributes::with_attributes(alloc, attributes)
}

/// The entity type of a number, with others right below it.
fn standard(
    alloc: Global,
    number: usize,
    below: Range<usize>,
) -> Result<ValidatorEntityType, Stop> {
    let name = entity_type(alloc, number)?;
    let below = entity_types(alloc, below)?;
    let attributes = attributes(alloc, number)?;
    let closed = OpenTag::ClosedAttributes;
    Ok(ValidatorEntityType::new_standard(alloc, name, below, attributes, closed, None, None)?)
}

/// The entity type of a number, which is external, with none below it.
pub(crate) fn external(alloc: Global, number: usize) -> Result<ValidatorEntityType, Stop> {
    let name = entity_type(alloc, number)?;
    Ok(ValidatorEntityType::new_external(alloc, name, Vec::new(alloc), None)?)
}

/// Three entity types, each but the last with the next below it.
fn types(alloc: Global) -> Result<Vec<ValidatorEntityType>, Stop> {
    let mut types = Vec::new(alloc);
    for number in 10usize..13 {
        let below = number.saturating_add(1)..number.saturating_add(2).min(13);
        types.push(standard(alloc, number, below)?)?;
    }
    Ok(types)
}

/// The uid of the action `view`, alone.
fn lower(alloc: Global) -> Result<Vec<EntityUID>, Stop> {
    let mut lower = Vec::new(alloc);
    lower.push(action_uid(alloc, "view")?)?;
    Ok(lower)
}

/// An action for requests of two entity types on a third, with others below it.
fn action(alloc: Global, id: &str, below: Vec<EntityUID>) -> Result<ValidatorActionId, Stop> {
    let uid = action_uid(alloc, id)?;
    let principals = entity_types(alloc, 10..12)?;
    let resources = entity_types(alloc, 12..13)?;
    let context = Type::Record {
        attrs: attributes(alloc, 1)?,
        open_attributes: OpenTag::ClosedAttributes,
    };
    Ok(ValidatorActionId::new_defined(alloc, uid, principals, resources, below, context, None)?)
}

/// Two actions, the first above the second.
fn actions(alloc: Global) -> Result<Vec<ValidatorActionId>, Stop> {
    let mut actions = Vec::new(alloc);
    actions.push(action(alloc, "all", lower(alloc)?)?)?;
    actions.push(action(alloc, "view", Vec::new(alloc))?)?;
    Ok(actions)
}

/// The schema of a chain of three entity types, and of two actions.
pub(crate) fn chain(alloc: Global) -> Result<ValidatorSchema, Stop> {
    let types = types(alloc)?;
    let actions = actions(alloc)?;
    Ok(ValidatorSchema::new(alloc, types, actions)?)
}

/// The lines of the chain once it is validated.
pub(crate) fn validated(alloc: Global) -> Result<String, Stop> {
    let schema = chain(alloc)?.try_validate(alloc, &no_extensions(alloc))?;
    Ok(lines_of(alloc, &schema)?)
}
