//! Questions of a whole schema.

use crate::questions::lists::{sorted, told, uid_texts};
use crate::questions::located::{located_type, located_uid, with_number};
use crate::questions::unknown;
use crate::schemas::shown;
use cedar_schema::below::{Entity, M, ValidationMode};
use cedar_schema::{CompleteError, RequestEnv, UnresolvedDeclaration, ValidatorSchema};
use checked::sample_extensions;
use schema_lines::uid_text;
use std::alloc::Global;
use std::test::Fail;

/// What is declared to be elsewhere, by its name.
fn lacking(alloc: Global, declaration: UnresolvedDeclaration<'_>) -> M<String> {
    match declaration {
        UnresolvedDeclaration::EntityType(ty) => located_type(alloc, ty.name()),
        UnresolvedDeclaration::Action(action) => located_uid(alloc, action.name()),
    }
}

/// All that is declared to be elsewhere.
fn lacks(alloc: Global, schema: &ValidatorSchema) -> M<String> {
    let mut texts = Vec::new(alloc);
    for declaration in schema.unresolved_declarations() {
        texts.push(lacking(alloc, declaration)?)?;
    }
    Ok(texts.join(alloc, " ")?)
}

/// That a schema is complete, or else what is printed of what it lacks, with its text.
fn check(alloc: Global, schema: &ValidatorSchema) -> M<String> {
    match schema.check_complete(alloc) {
        Ok(()) => Ok(String::from_str(alloc, "complete")?),
        Err(CompleteError::Incomplete(error)) => {
            with_number(alloc, error.to_string(alloc)?, error.loc)
        }
        Err(CompleteError::Memory(memory)) => Err(memory),
    }
}

/// The uid of an entity, and those of its ancestors without their locations.
fn entity_text(alloc: Global, entity: &Entity) -> M<String> {
    let mut text = located_uid(alloc, entity.uid())?;
    text.push_str(" in")?;
    for above in entity.ancestors() {
        text.push(' ')?;
        text.push_str(uid_text(alloc, above)?.as_str())?;
    }
    Ok(text)
}

/// The entities of the actions.
fn entities(alloc: Global, schema: &ValidatorSchema) -> Result<String, Fail> {
    let extensions = sample_extensions(alloc)?;
    let entities = schema.action_entities(alloc, &extensions)?;
    let mut texts = Vec::new(alloc);
    for entity in entities.iter() {
        texts.push(entity_text(alloc, entity)?)?;
    }
    Ok(texts.join(alloc, "; ")?)
}

/// An environment of requests.
fn environment_text(alloc: Global, it: &RequestEnv<'_>) -> M<String> {
    let action = located_uid(alloc, it.action)?;
    let (principal, resource, context) = (it.principal, it.resource, it.context);
    Ok(format!(in alloc; "{principal} {action} {resource} {context}")?)
}

/// The environments of requests in a mode, sorted.
fn environments(alloc: Global, schema: &ValidatorSchema, mode: ValidationMode) -> M<String> {
    let mut texts = Vec::new(alloc);
    for it in schema.unlinked_request_envs(mode) {
        texts.push(environment_text(alloc, &it)?)?;
    }
    texts.sort()?;
    Ok(texts.join(alloc, "; ")?)
}

/// The leaves of the types of a schema, sorted.
fn leaves(alloc: Global, schema: &ValidatorSchema) -> M<String> {
    let mut texts = Vec::new(alloc);
    for leaf in schema.leaf_types(alloc)? {
        texts.push(leaf?.to_string(alloc)?)?;
    }
    texts.sort()?;
    Ok(texts.join(alloc, " ")?)
}

/// The lines of a copy of a schema, which is equal to it and has as many environments.
fn copy(alloc: Global, schema: &ValidatorSchema) -> M<String> {
    let copy = schema.clone()?;
    let count = schema.unlinked_envs_owned().len();
    if copy == *schema && copy.unlinked_envs_owned().len() == count {
        return shown(alloc, &copy);
    }
    Ok(String::from_str(alloc, "a copy that isn't equal")?)
}

/// The names of all entity types, in their order.
fn names(alloc: Global, schema: &ValidatorSchema) -> M<String> {
    Ok(crate::questions::lists::names(alloc, schema.entity_type_names())?.join(alloc, " ")?)
}

/// The answer to a question of the whole.
pub(crate) fn answer(alloc: Global, schema: &ValidatorSchema, word: &str) -> Result<String, Fail> {
    let answer = match word {
        "names" => names(alloc, schema),
        "uids" => uid_texts(alloc, schema.actions()),
        "copy" => copy(alloc, schema),
        "principals" => sorted(alloc, schema.principals()),
        "resources" => sorted(alloc, schema.resources()),
        "groups" => uid_texts(alloc, schema.action_groups()),
        "leaves" => leaves(alloc, schema),
        "lacks" => lacks(alloc, schema),
        "check" => check(alloc, schema),
        "is_complete" => told(alloc, schema.is_complete()),
        "strict" => environments(alloc, schema, ValidationMode::Strict),
        "permissive" => environments(alloc, schema, ValidationMode::Permissive),
        "entities" => return entities(alloc, schema),
        _ => return Err(unknown(word)),
    };
    Ok(answer?)
}
