//! The fields of JSON objects.

ghost use Rattle.std.specs.Prelude.{◌≡◌, ◌++◌, true, false, Some, None, MatchOption, MatchResult, option_map, option_and_then};
ghost use Rattle.json.specs.Find.{get, as_object, as_str};
ghost use Rattle.json.specs.Value.{members_view, value_view};
ghost use Rattle.cedar_json.specs.Words.{IsOther, IsTrueOf, flag_or, further_fields, has_only, is_among, keys_among, known_fields, own_fields, texts_of, type_fields, type_word};

use crate::fault::{Expected, Fault, FaultKind, Row};
use json::Value;
use std::alloc::Global;

/// The members of an object.
pub(crate) fn members_of<'v, 'a>(value: &'v Value<'a>) -> Option<&'v Vec<(&'a str, Value<'a>)>>
    ensures { option_map (λ members. members_view members.now.items) result
        ≡ as_object (value_view value.now) }
{
    if let Value::Object(members) = value {
        Some(members)
    } else {
        None
    }
}

/// Why a value lacks a field.
pub(crate) fn lack(alloc: Global, value: &Value<'_>, name: &'static str) -> Fault
    ensures { get name.now (value_view value.now) ≡ None → IsTrueOf result (value_view value.now) }
{
    match members_of(value) {
        Some(_) => Fault::here(alloc, FaultKind::Missing(name)),
        None => Fault::here(alloc, FaultKind::Wants(Expected::Object)),
    }
}

/// What a field holds.
pub(crate) fn field<'v, 'a>(
    alloc: Global,
    value: &'v Value<'a>,
    name: &'static str,
) -> Result<&'v Value<'a>, Fault>
    ensures { MatchResult result
        (λ held. get name.now (value_view value.now) ≡ Some (value_view held.now))
        (λ fault. (get name.now (value_view value.now) ≡ None)
        × IsTrueOf fault (value_view value.now)) }
{
    match value.get(name) {
        Some(held) => Ok(held),
        None => Err(lack(alloc, value, name)),
    }
}

/// The text that a field holds.
pub(crate) fn text_field<'a>(
    alloc: Global,
    value: &Value<'a>,
    name: &'static str,
) -> Result<&'a str, Fault>
    ensures { MatchResult result
        (λ text. option_and_then as_str (get name.now (value_view value.now)) ≡ Some text.now)
        (λ fault. (option_and_then as_str (get name.now (value_view value.now)) ≡ None)
        × IsTrueOf fault (value_view value.now)) }
{
    match value.get(name) {
        Some(held) => match held.as_str() {
            Some(text) => Ok(text),
            None => Err(Fault::here(alloc, FaultKind::Wants(Expected::Text)).within(name)),
        },
        None => Err(lack(alloc, value, name)),
    }
}

/// The members of the object that a field holds.
pub(crate) fn object_field<'v, 'a>(
    alloc: Global,
    value: &'v Value<'a>,
    name: &'static str,
) -> Result<&'v Vec<(&'a str, Value<'a>)>, Fault>
    ensures { MatchResult result
        (λ members. option_and_then as_object (get name.now (value_view value.now))
        ≡ Some (members_view members.now.items))
        (λ fault. (option_and_then as_object (get name.now (value_view value.now)) ≡ None)
        × IsTrueOf fault (value_view value.now)) }
{
    match value.get(name) {
        Some(held) => match members_of(held) {
            Some(members) => Ok(members),
            None => Err(Fault::here(alloc, FaultKind::Wants(Expected::Object)).within(name)),
        },
        None => Err(lack(alloc, value, name)),
    }
}

/// The truth value that a field holds, or what its absence means.
pub(crate) fn flag_field(
    alloc: Global,
    value: &Value<'_>,
    name: &'static str,
    absent: bool,
) -> Result<bool, Fault>
    ensures { MatchResult result
        (λ flag. flag_or absent (get name.now (value_view value.now)) ≡ Some flag)
        (λ fault. (flag_or absent (get name.now (value_view value.now)) ≡ None)
        × IsTrueOf fault (value_view value.now)) }
{
    match value.get(name) {
        Some(held) => match held.as_bool() {
            Some(flag) => Ok(flag),
            None => Err(Fault::here(alloc, FaultKind::Wants(Expected::Flag)).within(name)),
        },
        None => Ok(absent),
    }
}

/// Whether a key is one of some names.
fn is_among(key: &str, names: &[&str]) -> bool
    ensures { result ≡ is_among key.now (texts_of names.now) }
{
    for name in names {
        if key == *name {
            return true;
        }
    }
    false
}

/// The text of the field `type`, or the empty text where there is none.
fn type_word<'a>(value: &Value<'a>) -> &'a str
    ensures { result.now ≡ type_word (value_view value.now) }
{
    match value.get("type") {
        Some(held) => held.as_str().unwrap_or(""),
        None => "",
    }
}

/// The fields of a type, by the text of its field `type`.
fn type_fields(word: &str) -> &'static [&'static str]
    ensures { texts_of result.now ≡ type_fields word.now }
{
    match word {
        "Set" => &["type", "element"],
        "Record" => &["type", "attributes", "additionalAttributes"],
        "Entity" | "EntityOrCommon" | "Extension" => &["type", "name"],
        _ => &["type"],
    }
}

/// The fields of an object of a kind.
fn own_fields(value: &Value<'_>, row: Row) -> &'static [&'static str]
    ensures { texts_of result.now ≡ own_fields row (value_view value.now) }
{
    match row {
        Row::OfType | Row::OfCommonType | Row::OfAttribute => type_fields(type_word(value)),
        Row::OfEntityType => &["memberOfTypes", "shape", "tags", "external", "annotations"],
        Row::OfEnumeratedType => &["enum", "external", "annotations"],
        Row::OfAction => &[
            "appliesTo",
            "memberOf",
            "attributes",
            "external",
            "annotations",
        ],
        Row::OfAppliesTo => &["principalTypes", "resourceTypes", "context"],
        Row::OfParent => &["id", "type"],
        Row::OfEntityUid => &["type", "id"],
        Row::OfCall => &["fn", "arg"],
        Row::OfDefinition => &["entityTypes", "actions", "commonTypes", "annotations"],
    }
}

/// The fields that an object which describes a type has besides.
fn further_fields(row: Row) -> &'static [&'static str]
    ensures { texts_of result.now ≡ further_fields row }
{
    match row {
        Row::OfCommonType => &["annotations"],
        Row::OfAttribute => &["required", "annotations"],
        Row::OfType
        | Row::OfEntityType
        | Row::OfEnumeratedType
        | Row::OfAction
        | Row::OfAppliesTo
        | Row::OfParent
        | Row::OfEntityUid
        | Row::OfCall
        | Row::OfDefinition => &[],
    }
}

/// Whether a key is one of some names, or of some more.
#[tactic(auto, using(crate::proofs::FieldLemmas::is_among_append))]
fn is_known(key: &str, own: &[&str], more: &[&str]) -> bool
    ensures { result ≡ is_among key.now (texts_of own.now ++ texts_of more.now) }
{
    is_among(key, own) || is_among(key, more)
}

/// The index of the first member whose key is none of the names.
fn other_member(members: &Vec<(&str, Value<'_>)>, own: &[&str], more: &[&str]) -> Option<usize>
    ensures { MatchOption result
        (keys_among (texts_of own.now ++ texts_of more.now) (members_view members.now.items) ≡ true)
        (IsOther (texts_of own.now ++ texts_of more.now) (members_view members.now.items)) }
{
    for (index, member) in members.iter().enumerate() {
        if !is_known(member.0, own, more) {
            return Some(index);
        }
    }
    None
}

/// Refuses what is no object, or an object of a kind with other fields than it may have.
pub(crate) fn check_fields(alloc: Global, value: &Value<'_>, row: Row) -> Result<(), Fault>
    ensures { MatchResult result
        (λ _. has_only (known_fields row (value_view value.now)) (value_view value.now) ≡ true)
        (λ fault. (has_only (known_fields row (value_view value.now)) (value_view value.now)
        ≡ false)
        × IsTrueOf fault (value_view value.now)) }
{
    let Some(members) = members_of(value) else {
        return Err(Fault::here(alloc, FaultKind::Wants(Expected::Object)));
    };
    match other_member(members, own_fields(value, row), further_fields(row)) {
        Some(index) => Err(Fault::here(alloc, FaultKind::UnknownField(row, index))),
        None => Ok(()),
    }
}
