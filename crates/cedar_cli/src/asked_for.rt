//! What options name: whether the schema has it, and what it has beside it where it hasn't.

use crate::answers::{Answer, EnvironmentFilter};
use crate::repeating::{Repeated, shortened};
use crate::text::Text;
use cedar_ast::{EntityType, EntityUID, M, Memory, NameFault, Quoted};
use cedar_schema::ValidatorSchema;
use std::alloc::Global;
use std::fmt::Display;

/// How many names are told that a schema has.
const MOST: usize = 3;

/// Adds one of the names that the schema has, behind so many and some words.
fn push_like<T: Display + Drop>(why: &mut Text, words: &str, count: usize, name: T) {
    if count < MOST {
        why.push_str(if count == 0 { words } else { ", " });
        write!(why, "{name}");
    }
}

/// Adds the entity types that a schema has of the base name of another.
fn push_types_like(why: &mut Text, schema: &ValidatorSchema, ty: &EntityType) {
    let mut count = 0usize;
    for other in schema.entity_types() {
        if other.name().name().basename() == ty.name().basename() {
            push_like(why, "; it has ", count, other.name());
            count = count.saturating_add(1);
        }
    }
}

/// Adds the actions that a schema has of an id, behind some words.
fn push_actions_like(why: &mut Text, words: &str, schema: &ValidatorSchema, id: &str) {
    let mut count = 0usize;
    for other in schema.action_ids() {
        if other.name().eid().as_str() == id {
            push_like(why, words, count, other.name());
            count = count.saturating_add(1);
        }
    }
}

/// That a schema has nothing of a kind.
fn nothing(why: Text) -> Answer {
    Answer::nothing(match why.whole() {
        Ok(why) => shortened(why),
        Err(refused) => Err(refused),
    })
}

/// That a schema has no entity type of a name.
pub(crate) fn no_type(alloc: Global, schema: &ValidatorSchema, ty: &EntityType) -> Answer {
    let mut why = Text::new(alloc);
    write!(why, "the schema has no entity type {ty}");
    push_types_like(&mut why, schema, ty);
    nothing(why)
}

/// That a schema defines no action of a uid. It may have an external one.
pub(crate) fn no_action(alloc: Global, schema: &ValidatorSchema, uid: &EntityUID) -> Answer {
    let mut why = Text::new(alloc);
    write!(why, "the schema defines no action {uid}");
    if schema.get_action_id(uid).is_none() {
        push_actions_like(&mut why, "; it has ", schema, uid.eid().as_str());
    }
    nothing(why)
}

/// The entity type that a word names.
pub(crate) fn type_named(alloc: Global, word: &str) -> Result<EntityType, Answer> {
    match EntityType::from_str(alloc, word) {
        Ok(ty) => Ok(ty),
        Err(NameFault::Memory(refused)) => Err(Answer::bad_word(Err(refused))),
        Err(fault) => {
            let why = format!(in alloc; "{}: {fault}", Repeated(word)).or(Err(Memory));
            Err(Answer::bad_word(why))
        }
    }
}

/// Why a word is no uid, with the actions that the schema has of that id.
fn no_uid(alloc: Global, schema: &ValidatorSchema, word: &str, fault: NameFault) -> M<String> {
    let mut why = Text::new(alloc);
    let repeated = Repeated(word);
    write!(
        why,
        "{repeated}: {fault}; an action is written with its type, as in "
    );
    write!(
        why,
        "Action::{}{}",
        Quoted(repeated.beginning()),
        repeated.rest()
    );
    push_actions_like(&mut why, "; the schema has ", schema, word);
    why.whole()
}

/// The uid that a word spells.
pub(crate) fn uid_named(
    alloc: Global,
    schema: &ValidatorSchema,
    word: &str,
) -> Result<EntityUID, Answer> {
    match EntityUID::from_str(alloc, word) {
        Ok(uid) => Ok(uid),
        Err(NameFault::Memory(refused)) => Err(Answer::bad_word(Err(refused))),
        Err(fault) => Err(Answer::bad_word(no_uid(alloc, schema, word, fault))),
    }
}

/// The entity type that an option names, if it is given, and the schema has it.
fn type_asked(
    alloc: Global,
    schema: &ValidatorSchema,
    word: Option<&str>,
) -> Result<Option<EntityType>, Answer> {
    let Some(word) = word else {
        return Ok(None);
    };
    let ty = type_named(alloc, word)?;
    if schema.get_entity_type(&ty).is_some() {
        return Ok(Some(ty));
    }
    Err(no_type(alloc, schema, &ty))
}

/// The action that an option names, if it is given, and the schema has it.
fn action_asked(
    alloc: Global,
    schema: &ValidatorSchema,
    word: Option<&str>,
) -> Result<Option<EntityUID>, Answer> {
    let Some(word) = word else {
        return Ok(None);
    };
    let uid = uid_named(alloc, schema, word)?;
    if schema.get_action_id(&uid).is_some() {
        return Ok(Some(uid));
    }
    Err(no_action(alloc, schema, &uid))
}

/// What options name of environments.
#[derive(Clone, Copy, Drop)]
pub(crate) struct EnvironmentWords<'a> {
    /// The name of an entity type.
    pub(crate) principal: Option<&'a str>,
    /// A uid.
    pub(crate) action: Option<&'a str>,
    /// The name of an entity type.
    pub(crate) resource: Option<&'a str>,
}

/// What environments are asked for.
pub(crate) fn environments_asked(
    alloc: Global,
    schema: &ValidatorSchema,
    words: EnvironmentWords<'_>,
) -> Result<EnvironmentFilter, Answer> {
    let principal = type_asked(alloc, schema, words.principal)?;
    let resource = type_asked(alloc, schema, words.resource)?;
    Ok(EnvironmentFilter {
        principal,
        action: action_asked(alloc, schema, words.action)?,
        resource,
    })
}
