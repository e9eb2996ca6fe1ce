//! Questions of entity types and of uids, which are listed.

ghost use Rattle.std.specs.Iterator.{IsFinite};

use crate::questions::located::{located_type, located_uid};
use crate::questions::missing;
use cedar_schema::below::{EntityType, EntityUID, M};
use cedar_schema::{RequestTypes, ValidatorSchema};
use std::alloc::Global;

/// The names of some entity types, one after another.
pub(crate) fn names<'a, I: Iterator<Item = &'a EntityType> + Drop>(
    alloc: Global,
    types: I,
) -> M<Vec<String>>
    requires can { I.can_next types }
    requires ends { IsFinite (I.remaining types) }
{
    let mut names = Vec::new(alloc);
    for ty in types {
        names.push(located_type(alloc, ty)?)?;
    }
    Ok(names)
}

/// The names of some entity types, sorted.
pub(crate) fn sorted<'a, I: Iterator<Item = &'a EntityType> + Drop>(
    alloc: Global,
    types: I,
) -> M<String>
    requires can { I.can_next types }
    requires ends { IsFinite (I.remaining types) }
{
    let mut names = names(alloc, types)?;
    names.sort()?;
    Ok(names.join(alloc, " ")?)
}

/// The texts of some uids.
pub(crate) fn uid_texts<'a, I: Iterator<Item = &'a EntityUID> + Drop>(
    alloc: Global,
    uids: I,
) -> M<String>
    requires can { I.can_next uids }
    requires ends { IsFinite (I.remaining uids) }
{
    let mut texts = Vec::new(alloc);
    for uid in uids {
        texts.push(located_uid(alloc, uid)?)?;
    }
    Ok(texts.join(alloc, " ")?)
}

/// The names of some entity types, sorted, if they are there.
fn found(alloc: Global, types: Option<RequestTypes<'_>>) -> M<String> {
    match types {
        Some(types) => sorted(alloc, types),
        None => missing(alloc),
    }
}

/// The ancestors of an entity type.
fn ancestors(alloc: Global, schema: &ValidatorSchema, ty: &EntityType) -> M<String> {
    match schema.ancestors(ty) {
        Some(above) => Ok(names(alloc, above)?.join(alloc, " ")?),
        None => missing(alloc),
    }
}

/// The last of the types in an entity type.
fn last_in(alloc: Global, schema: &ValidatorSchema, ty: &EntityType) -> M<String> {
    match schema.get_entity_types_in(alloc, ty)?.last() {
        Some(last) => located_type(alloc, last),
        None => missing(alloc),
    }
}

/// The types in an entity type, sorted.
fn types_in(alloc: Global, schema: &ValidatorSchema, ty: &EntityType) -> M<String> {
    sorted(alloc, schema.get_entity_types_in(alloc, ty)?.into_iter())
}

/// The actions in those of a list.
fn actions_in(alloc: Global, schema: &ValidatorSchema, listed: &[EntityUID]) -> M<String> {
    match schema.get_actions_in_set(alloc, listed)? {
        Some(all) => uid_texts(alloc, all.into_iter()),
        None => missing(alloc),
    }
}

/// The type of the context of an action's requests, if there is one.
fn context(alloc: Global, schema: &ValidatorSchema, uid: &EntityUID) -> M<String> {
    match schema.context_type(uid) {
        Some(ty) => Ok(ty.to_string(alloc)?),
        None => missing(alloc),
    }
}

/// Whether something is so, as text.
pub(crate) fn told(alloc: Global, is_so: bool) -> M<String> {
    Ok(is_so.to_string(alloc)?)
}

/// The answer to a question of listed entity types: of one, or of whether the first may be among or
/// below some of the others, or some of the first half so of the second, or of the actions for the
/// first as principal and the second as resource.
pub(crate) fn of_types(
    alloc: Global,
    schema: &ValidatorSchema,
    word: &str,
    types: &[EntityType],
) -> M<String> {
    match (word, types) {
        ("ancestors", [ty]) => ancestors(alloc, schema, ty),
        ("types_in", [ty]) => types_in(alloc, schema, ty),
        ("last_in", [ty]) => last_in(alloc, schema, ty),
        ("is_type", [ty]) => told(alloc, schema.is_known_entity_type(ty)),
        ("is_found", [ty]) => told(alloc, schema.get_entity_type(ty).is_some()),
        ("is_below", [_, ..]) => {
            let (lowers, uppers) = types.split_at(1);
            told(alloc, schema.any_descendent_of(lowers, uppers))
        }
        ("are_below", _) => {
            let (lowers, uppers) = types.split_at(types.len() / 2);
            told(alloc, schema.any_descendent_of(lowers, uppers))
        }
        ("actions_for", [principal, resource]) => {
            uid_texts(
                alloc,
                schema.actions_for_principal_and_resource(principal, resource),
            )
        }
        _ => missing(alloc),
    }
}

/// The answer to a question of listed uids.
pub(crate) fn of_uids(
    alloc: Global,
    schema: &ValidatorSchema,
    word: &str,
    uids: &[EntityUID],
) -> M<String> {
    match (word, uids) {
        ("principals", [uid]) => found(alloc, schema.principals_for_action(uid)),
        ("resources", [uid]) => found(alloc, schema.resources_for_action(uid)),
        ("context", [uid]) => context(alloc, schema, uid),
        ("is_action", [uid]) => told(alloc, schema.is_known_action_id(uid)),
        ("exists", [uid]) => told(alloc, schema.entity_exists(uid)),
        ("is_found", [uid]) => told(alloc, schema.get_action_id(uid).is_some()),
        ("actions_in", _) => actions_in(alloc, schema, uids),
        _ => missing(alloc),
    }
}
