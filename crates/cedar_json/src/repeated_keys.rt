//! Keys that come twice in an object.

ghost use Rattle.std.specs.Prelude.{◌≡◌, Some, IfOk, MatchOption, MatchResult};
ghost use Rattle.json.specs.Json.{Json, array, object};
ghost use Rattle.json.specs.Strict.{AreDistinct, HasUniqueKeys, ItemsHaveUniqueKeys, MembersHaveUniqueKeys, keys};
ghost use Rattle.json.specs.Value.{items_view, members_view, value_view};
ghost use Rattle.cedar_json.specs.Words.{IsRepeatIn, IsRepeated, step_into};

use crate::fault::Step;
use cedar_ast::{M, Memory};
use json::Value;
use std::alloc::Global;
use std::collections::BTreeMap;

/// A key that comes twice in an object, or out of memory.
#[derive(Drop)]
pub(crate) enum Repeat {
    /// The steps to the object, the last of them first, and the index of a member whose key is that
    /// of an earlier member too.
    At(Vec<Step>, usize),
    /// Out of memory.
    Memory,
}

impl Repeat {
    /// The same repeat, seen from a value that a step leads from, or out of memory.
    fn behind(self, step: Step) -> Repeat
        ensures { (j k : Json) → step_into step j ≡ Some k → IsRepeatIn self k
            → IsRepeatIn result j }
    {
        match self {
            Repeat::At(mut steps, index) => match steps.push(step) {
                Ok(()) => Repeat::At(steps, index),
                Err(_) => Repeat::Memory,
            },
            Repeat::Memory => Repeat::Memory,
        }
    }
}

impl From<Memory> for Repeat {
    ghost use Rattle.std.specs.Prelude.{◌≡◌};
    ghost use Rattle.cedar_json.specs.declared.repeated_keys.Repeat.TheVariants as repeat;

    ghost from_gives = { λ _ it. it ≡ repeat.Memory };

    fn from(_refused: Memory) -> Repeat {
        Repeat::Memory
    }
}

/// The index of the first member whose key is that of an earlier member too.
fn repeated_key<'a>(alloc: Global, members: &Vec<(&'a str, Value<'a>)>) -> M<Option<usize>>
    ensures { IfOk result (λ found. MatchOption found
        (AreDistinct (keys (members_view members.now.items)))
        (λ index. IsRepeated index (object (members_view members.now.items)))) }
{
    let mut seen = BTreeMap::new(alloc);
    for (index, member) in members.iter().enumerate() {
        if seen.insert(member.0, index)?.is_some() {
            return Ok(Some(index));
        }
    }
    Ok(None)
}

/// Refuses a value in which an object has a key twice, with the place of the second key.
#[cycle(repeated_keys)]
pub(crate) fn check_keys(alloc: Global, value: &Value<'_>) -> Result<(), Repeat>
    ensures { MatchResult result
        (λ _. HasUniqueKeys (value_view value.now))
        (λ repeat. IsRepeatIn repeat (value_view value.now)) }
{
    match value {
        Value::Array(items) => check_items(alloc, items),
        Value::Object(members) => check_object(alloc, members),
        Value::Null | Value::Bool(_) | Value::Number(_) | Value::String(_) => Ok(()),
    }
}

/// The same of the items of an array.
#[cycle(repeated_keys)]
fn check_items(alloc: Global, items: &Vec<Value<'_>>) -> Result<(), Repeat>
    ensures { MatchResult result
        (λ _. ItemsHaveUniqueKeys (items_view items.now.items))
        (λ repeat. IsRepeatIn repeat (array (items_view items.now.items))) }
{
    for (index, item) in items.iter().enumerate() {
        match check_keys(alloc, item) {
            Ok(()) => {}
            Err(repeat) => return Err(repeat.behind(Step::Item(index))),
        }
    }
    Ok(())
}

/// The same of an object with the members.
#[cycle(repeated_keys)]
fn check_object<'a>(alloc: Global, members: &Vec<(&'a str, Value<'a>)>) -> Result<(), Repeat>
    ensures { MatchResult result
        (λ _. HasUniqueKeys (object (members_view members.now.items)))
        (λ repeat. IsRepeatIn repeat (object (members_view members.now.items))) }
{
    match repeated_key(alloc, members)? {
        Some(index) => Err(Repeat::At(Vec::new(alloc), index)),
        None => check_members(alloc, members),
    }
}

/// The same of the values of members.
#[cycle(repeated_keys)]
fn check_members(alloc: Global, members: &Vec<(&str, Value<'_>)>) -> Result<(), Repeat>
    ensures { MatchResult result
        (λ _. MembersHaveUniqueKeys (members_view members.now.items))
        (λ repeat. IsRepeatIn repeat (object (members_view members.now.items))) }
{
    for (index, member) in members.iter().enumerate() {
        match check_keys(alloc, &member.1) {
            Ok(()) => {}
            Err(repeat) => return Err(repeat.behind(Step::Member(index))),
        }
    }
    Ok(())
}
