//! Annotations, which are read and dropped.

ghost use Rattle.std.specs.Prelude.{◌≡◌, ◌&&◌, Some, true, false, MatchResult, codes};
ghost use Rattle.json.specs.Find.{get};
ghost use Rattle.json.specs.Json.{object};
ghost use Rattle.json.specs.Value.{value_view, members_view};
ghost use Rattle.cedar_json.specs.Words.{IsTrueOf, annotations_fit, are_annotations, has_only, is_text_or_null, known_fields};

use crate::fault::{Expected, Fault, FaultKind, Row, Step};
use crate::fields::{check_fields, members_of};
use crate::spelling::is_identifier;
use json::Value;
use std::alloc::Global;

/// Whether a value is a text or `null`.
fn is_text_or_null(value: &Value<'_>) -> bool
    ensures { result ≡ is_text_or_null (value_view value.now) }
{
    matches!(value, Value::Null | Value::String(_))
}

/// Refuses members that are no annotations.
fn check_annotation_members(alloc: Global, members: &Vec<(&str, Value<'_>)>) -> Result<(), Fault>
    ensures { MatchResult result
        (λ _. are_annotations (members_view members.now.items) ≡ true)
        (λ fault. (are_annotations (members_view members.now.items) ≡ false)
        × IsTrueOf fault (object (members_view members.now.items))) }
{
    for (index, member) in members.iter().enumerate() {
        if !is_identifier(member.0) {
            return Err(Fault::here(alloc, FaultKind::KeyIsNoId(index)));
        }
        if !is_text_or_null(&member.1) {
            let fault = Fault::here(alloc, FaultKind::Wants(Expected::TextOrNull));
            return Err(fault.behind(Step::Member(index)));
        }
    }
    Ok(())
}

/// Refuses a value that is no annotations: an object of identifiers with texts or `null`.
fn check_held(alloc: Global, value: &Value<'_>) -> Result<(), Fault>
    ensures { MatchResult result
        (λ _. annotations_fit (Some (value_view value.now)) ≡ true)
        (λ fault. (annotations_fit (Some (value_view value.now)) ≡ false)
        × IsTrueOf fault (value_view value.now)) }
{
    match members_of(value) {
        Some(members) => check_annotation_members(alloc, members),
        None => Err(Fault::here(alloc, FaultKind::Wants(Expected::Object))),
    }
}

/// Refuses an object whose field `annotations` holds no annotations. The field may be absent.
pub(crate) fn check_annotations(alloc: Global, value: &Value<'_>) -> Result<(), Fault>
    ensures { MatchResult result
        (λ _. annotations_fit (get (codes "annotations") (value_view value.now)) ≡ true)
        (λ fault. (annotations_fit (get (codes "annotations") (value_view value.now)) ≡ false)
        × IsTrueOf fault (value_view value.now)) }
{
    let name = "annotations";
    let Some(held) = value.get(name) else {
        return Ok(());
    };
    match check_held(alloc, held) {
        Ok(()) => Ok(()),
        Err(fault) => Err(fault.within(name)),
    }
}

/// Refuses an object of a kind that has other fields than it may have, or annotations that are
/// none.
pub(crate) fn check_declaration(alloc: Global, value: &Value<'_>, row: Row) -> Result<(), Fault>
    ensures { let j = value_view value.now in
        let fits = has_only (known_fields row j) j
        && annotations_fit (get (codes "annotations") j) in
        MatchResult result (λ _. fits ≡ true) (λ fault. (fits ≡ false) × IsTrueOf fault j) }
{
    check_fields(alloc, value, row)?;
    check_annotations(alloc, value)
}
