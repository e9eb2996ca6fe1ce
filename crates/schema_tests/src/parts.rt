//! Schemas that are put together of parts of others, as no texts declare them.

use crate::schemas::schema_of;
use cedar_schema::below::EntityUID;
use cedar_schema::{
    Attributes, OpenTag, Type, ValidatorActionId, ValidatorEntityType, ValidatorSchema,
};
use checked::names::{entity_type, uid};
use std::alloc::Global;
use std::test::Fail;

/// Texts, each with the entity types and the actions that are taken of its schema. What a text
/// doesn't declare is external.
pub(crate) type Parts = &'static [(
    &'static str,
    &'static [&'static str],
    &'static [&'static str],
)];

/// The entity type of a name in a schema, or an external one.
fn taken_type(
    alloc: Global,
    schema: &ValidatorSchema,
    name: &str,
) -> Result<ValidatorEntityType, Fail> {
    let name = entity_type(alloc, name)?;
    match schema.get_entity_type(&name) {
        Some(ty) => Ok(ty.clone()?),
        None => Ok(ValidatorEntityType::new_external(alloc, name, Vec::new(alloc), None)?),
    }
}

/// The action of a uid in a schema, or an external one.
fn taken_action(
    alloc: Global,
    schema: &ValidatorSchema,
    text: &str,
) -> Result<ValidatorActionId, Fail> {
    let uid = uid(alloc, text)?;
    match schema.get_action_id(&uid) {
        Some(action) => Ok(action.clone()?),
        None => Ok(ValidatorActionId::new_external(alloc, uid, Vec::new(alloc), None)?),
    }
}

/// Takes entity types of a schema.
fn take_types(
    alloc: Global,
    schema: &ValidatorSchema,
    names: &[&str],
    types: &mut Vec<ValidatorEntityType>,
) -> Result<(), Fail> {
    for name in names {
        types.push(taken_type(alloc, schema, name)?)?;
    }
    Ok(())
}

/// Takes actions of a schema.
fn take_actions(
    alloc: Global,
    schema: &ValidatorSchema,
    uids: &[&str],
    actions: &mut Vec<ValidatorActionId>,
) -> Result<(), Fail> {
    for uid in uids {
        actions.push(taken_action(alloc, schema, uid)?)?;
    }
    Ok(())
}

/// The schema that is put together of parts.
pub(crate) fn put_together(alloc: Global, parts: Parts) -> Result<ValidatorSchema, Fail> {
    let (mut types, mut actions) = (Vec::new(alloc), Vec::new(alloc));
    for (text, names, uids) in parts {
        let schema = schema_of(alloc, &[*text])?;
        take_types(alloc, &schema, names, &mut types)?;
        take_actions(alloc, &schema, uids, &mut actions)?;
    }
    Ok(ValidatorSchema::new(alloc, types, actions)?)
}

/// The schema of the one entity type `U`, with these attributes and tags.
pub(crate) fn with_type(
    alloc: Global,
    attributes: Attributes,
    open: OpenTag,
    tags: Option<Type>,
) -> Result<ValidatorSchema, Fail> {
    let (name, below) = (entity_type(alloc, "U")?, Vec::new(alloc));
    let ty = ValidatorEntityType::new_standard(alloc, name, below, attributes, open, tags, None)?;
    Ok(ValidatorSchema::new(alloc, [ty], Vec::new(alloc))?)
}

/// The schema of the one action `v`, which is for no requests, with a context and those below it.
pub(crate) fn with_action(
    alloc: Global,
    below: Vec<EntityUID>,
    context: Type,
) -> Result<ValidatorSchema, Fail> {
    let name = uid(alloc, "Action::v")?;
    let (principals, resources) = (Vec::new(alloc), Vec::new(alloc));
    let action = ValidatorActionId::new_defined(
        alloc, name, principals, resources, below, context, None,
    )?;
    Ok(ValidatorSchema::new(alloc, Vec::new(alloc), [action])?)
}
