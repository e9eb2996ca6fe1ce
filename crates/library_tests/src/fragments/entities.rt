//! Values and entities, of which no text tells.

use crate::fragments::shown::is_alike;
use crate::types::test_values::{PLACE, text, value};
use cedar_ast::{Eid, Entities, Entity, EntityUID, Loc, M, NonEmpty, Value};
use checked::names::{entity_type, uid, uids};
use checked::{holds, same};
use std::alloc::Global;
use std::collections::{BTreeMap, BTreeSet};
use std::test::Fail;

#[test]
fn copies_of_values_are_shown_alike(rt: HostRuntime) -> Result<(), Fail> {
    let alloc = rt.alloc();
    for word in &["{a:1,b:x}", "[1;ip=x"] {
        let value = Value::new(value(alloc, word)?);
        holds(is_alike(alloc, value.clone(), &value), word)?;
    }
    Ok(())
}

/// Two ids.
fn ids(alloc: Global) -> Result<NonEmpty<Eid>, Fail> {
    let tail = vec![in alloc; Eid(text(alloc, "y")?)]?;
    let head = Eid(text(alloc, "x")?);
    Ok(NonEmpty { head, tail })
}

/// The texts of ids, one after another.
fn text_of_ids(alloc: Global, ids: &NonEmpty<Eid>) -> M<String> {
    let mut text = String::new(alloc);
    for id in ids.iter() {
        text.push_str(id.as_str())?;
    }
    Ok(text)
}

#[test]
fn lists_that_are_not_empty_are_copied_and_gone_over(rt: HostRuntime) -> Result<(), Fail> {
    let ids = ids(rt.alloc())?;
    same("x and y", text_of_ids(rt.alloc(), &ids)?.as_str(), "xy")?;
    holds(ids.clone()? == ids && ids.len() == 2, "x and y")
}

/// The entity of type `User` and an id, below two groups.
fn entity(alloc: Global, eid: &str, loc: Option<Loc>) -> Result<Entity, Fail> {
    let eid = Eid(text(alloc, eid)?);
    let uid = EntityUID::new(entity_type(alloc, "User")?, eid, loc);
    let ancestors = BTreeSet::from_iter(alloc, uids(alloc, "Group::b,Group::a")?)?;
    Ok(Entity::new(uid, BTreeMap::new(alloc), BTreeMap::new(alloc), ancestors))
}

/// Ids of users, each with where it was written, and whether there was none of it before.
const USERS: &[(&str, Option<Loc>, bool)] = &[
    ("b", None, true),
    ("a", None, true),
    ("b", Some(PLACE), false),
];

/// Those users, each below two groups.
fn users(alloc: Global) -> Result<Entities, Fail> {
    let mut entities = Entities::new(alloc);
    for &(eid, loc, is_new) in USERS {
        let old = entities.insert(entity(alloc, eid, loc)?)?;
        holds(old.is_none() == is_new, eid)?;
    }
    Ok(entities)
}

/// The ids of some entities, each before those of its ancestors.
fn listed(alloc: Global, entities: &Entities) -> M<String> {
    let mut ids = String::new(alloc);
    for entity in entities.iter() {
        ids.push_str(entity.uid().eid().as_str())?;
        for ancestor in entity.ancestors() {
            ids.push_str(ancestor.eid().as_str())?;
        }
    }
    Ok(ids)
}

/// Where the entity of a uid was written, if there is one.
fn place_of(entities: &Entities, uid: &EntityUID) -> Option<Option<Loc>> {
    entities.get(uid).map(|entity| entity.uid().loc())
}

#[test]
fn entities_are_listed_and_found_by_uid(rt: HostRuntime) -> Result<(), Fail> {
    let alloc = rt.alloc();
    let entities = users(alloc)?;
    same("users", listed(alloc, &entities)?.as_str(), "aabbab")?;
    let found = place_of(&entities, &uid(alloc, "User::b")?);
    holds(found == Some(Some(PLACE)) && entities.len() == 2, "a user")?;
    let found = place_of(&entities, &uid(alloc, "Group::b")?);
    holds(found.is_none(), "a group")
}
