//! The walk down two types to where they part.

ghost use Rattle.std.specs.Prelude.{◌≡◌, [], Contains, IfOk, string_bytes};
ghost use Rattle.std.specs.Option.{option_map};
ghost use Rattle.cedar_counterexample.specs.Words.{AreSampledIn, ClosedAttributes, Extensions, Fields, FieldsIncluded, IsAttributeStart, IsCounterexampleAnswer, IsFieldStart, IsOutsideAnswer, IsRecordStart, IsSampledIn, Ty, attribute_of, empty_start, entries_of, entry, field_names, fields_of, found_element, found_of, no_entry, record_found, record_of, set_of, start_of, start_through, tree_of, ty_of};

use crate::found::{Found, Start};
use crate::fresh::fresh_name;
use crate::leaves::{other_value, separating_leaf, set_of_one};
use crate::putting::put;
use crate::samples::{fill, sample_of};
use crate::search::Search;
use crate::steps::{Step, noted};
use cedar_ast::{M, RestrictedExpr};
use cedar_types::{AttributeType, Attributes, OpenTag, Type};
use std::alloc::Global;
use std::collections::BTreeMap;

/// One value under a name.
pub(crate) fn alone(
    alloc: Global,
    name: String,
    value: RestrictedExpr,
) -> M<BTreeMap<String, RestrictedExpr>>
    ensures { IfOk result (λ values.
        entries_of values ≡ entry (string_bytes name) (tree_of value) no_entry) }
{
    let mut values = BTreeMap::new(alloc);
    put(&mut values, name, value)?;
    Ok(values)
}

/// What is found of two types that part at once.
fn found_here(alloc: Global, found: Option<RestrictedExpr>) -> Option<Found>
    ensures { (extensions : Extensions) (a b : Ty)
        → IsCounterexampleAnswer extensions a b (option_map tree_of found)
        → IsOutsideAnswer extensions a b (option_map found_of result) }
{
    match found {
        Some(expr) => Some(Found {
            expr,
            steps: Vec::new(alloc),
        }),
        None => None,
    }
}

/// The set of one value that was found.
pub(crate) fn in_set(alloc: Global, found: Found) -> M<Found>
    ensures { IfOk result (λ set. found_of set ≡ found_element (found_of found)) }
{
    let Found { expr, steps } = found;
    let steps = noted(steps, Step::Element)?;
    let expr = set_of_one(alloc, expr)?;
    Ok(Found { expr, steps })
}

/// The start of one value, which was found for the attribute of a name.
pub(crate) fn start_with(alloc: Global, name: &String, found: Found) -> M<Start>
    ensures { IfOk result (λ start.
        start_of start ≡ start_through (string_bytes name.now) (found_of found)) }
{
    let Found { expr, steps } = found;
    let steps = noted(steps, Step::Attribute(name.clone()?))?;
    let values = alone(alloc, name.clone()?, expr)?;
    Ok(Start { values, steps })
}

/// The start of one value under the name of an attribute that only one of two records has.
fn start_at(alloc: Global, name: &String, expr: RestrictedExpr) -> M<Start>
    ensures { IfOk result (λ start. start_of start
        ≡ start_through (string_bytes name.now) (record { value = tree_of expr; steps = [] })) }
{
    let steps = Vec::new(alloc);
    start_with(alloc, name, Found { expr, steps })
}

/// The start without values, where an attribute that may be missing is required.
fn start_of_none(alloc: Global, name: &String) -> M<Start>
    ensures { IfOk result (λ start. start_of start ≡ empty_start (string_bytes name.now)) }
{
    let steps = noted(Vec::new(alloc), Step::Attribute(name.clone()?))?;
    Ok(Start {
        values: BTreeMap::new(alloc),
        steps,
    })
}

/// A start of a value of a record that a closed one hasn't, each attribute of which it has: a
/// sample under a name that the second lacks, and any value under a name that neither has where the
/// first is open and has no such name.
fn separating_names(
    search: &Search,
    lower: &Attributes,
    openness: OpenTag,
    upper: &Attributes,
) -> M<Option<Start>>
    requires inhabited { AreSampledIn search.now (fields_of lower.now) }
    requires included { FieldsIncluded openness (fields_of lower.now) (fields_of upper.now) }
    ensures { IfOk result (λ found.
        IsRecordStart search.now.extensions.now (fields_of lower.now) openness
        (fields_of upper.now) ClosedAttributes (option_map start_of found)) }
{
    for (name, attribute) in lower.iter() {
        if upper.get_attr(name).is_none() {
            let sample = sample_of(search, &attribute.attr_type)?;
            return Ok(Some(start_at(search.alloc, name, sample)?));
        }
    }
    match openness {
        OpenTag::OpenAttributes => {
            let name = fresh_name(search.alloc, lower)?;
            let values = alone(search.alloc, name, RestrictedExpr::Bool(true))?;
            let steps = Vec::new(search.alloc);
            Ok(Some(Start { values, steps }))
        }
        OpenTag::ClosedAttributes => Ok(None),
    }
}

/// A start of a value of a record that another hasn't because of an attribute whose name the first
/// lacks: nothing where the attribute is required, and a value that its type hasn't where the first
/// is open.
fn start_without(
    alloc: Global,
    openness: OpenTag,
    name: &String,
    attribute: &AttributeType,
) -> M<Option<Start>>
    ensures { IfOk result (λ found. (extensions : Extensions) (lower : Fields)
        → ¬ Contains (field_names lower) (string_bytes name.now)
        → IsFieldStart extensions lower openness (string_bytes name.now)
        (attribute_of attribute.now).0 (attribute_of attribute.now).1
        (option_map start_of found)) }
{
    if attribute.is_required {
        return Ok(Some(start_of_none(alloc, name)?));
    }
    match openness {
        OpenTag::OpenAttributes => {
            let value = other_value(alloc, &attribute.attr_type);
            Ok(Some(start_at(alloc, name, value)?))
        }
        OpenTag::ClosedAttributes => Ok(None),
    }
}

/// A start of a value of a record that another hasn't because of one of its attributes: nothing
/// where that one alone is required, and one value that separates the two types of the name.
#[cycle(separating)]
fn separating_field(
    search: &Search,
    lower: &Attributes,
    openness: OpenTag,
    name: &String,
    attribute: &AttributeType,
) -> M<Option<Start>>
    requires { AreSampledIn search.now (fields_of lower.now) }
    ensures { IfOk result (λ found.
        IsFieldStart search.now.extensions.now (fields_of lower.now) openness
        (string_bytes name.now) (attribute_of attribute.now).0 (attribute_of attribute.now).1
        (option_map start_of found)) }
{
    let Some(own) = lower.get_attr(name) else {
        return start_without(search.alloc, openness, name, attribute);
    };
    if attribute.is_required && !own.is_required {
        return Ok(Some(start_of_none(search.alloc, name)?));
    }
    let found = separating_expr(search, &own.attr_type, &attribute.attr_type)?;
    match found {
        Some(found) => Ok(Some(start_with(search.alloc, name, found)?)),
        None => Ok(None),
    }
}

/// A start of a value of a record that another hasn't because of its attributes, if there is one.
#[cycle(separating)]
fn separating_attribute(
    search: &Search,
    lower: &Attributes,
    openness: OpenTag,
    upper: &Attributes,
) -> M<Option<Start>>
    requires { AreSampledIn search.now (fields_of lower.now) }
    ensures { IfOk result (λ found.
        IsAttributeStart search.now.extensions.now (fields_of lower.now) openness
        (fields_of upper.now) (option_map start_of found)) }
{
    for (name, attribute) in upper.iter() {
        let found = separating_field(search, lower, openness, name, attribute)?;
        if let Some(start) = found {
            return Ok(Some(start));
        }
    }
    Ok(None)
}

/// A start of a value of a record that another hasn't, if there is one.
#[cycle(separating)]
fn separating_start(
    search: &Search,
    lower: &Attributes,
    openness: OpenTag,
    upper: &Attributes,
    upper_openness: OpenTag,
) -> M<Option<Start>>
    requires { AreSampledIn search.now (fields_of lower.now) }
    ensures { IfOk result (λ found.
        IsRecordStart search.now.extensions.now (fields_of lower.now) openness
        (fields_of upper.now) upper_openness (option_map start_of found)) }
{
    let found = separating_attribute(search, lower, openness, upper)?;
    if let Some(start) = found {
        return Ok(Some(start));
    }
    match upper_openness {
        OpenTag::OpenAttributes => Ok(None),
        OpenTag::ClosedAttributes => separating_names(search, lower, openness, upper),
    }
}

/// The values of a record that the one record type has and the other hasn't, if there is one: a
/// start, with samples of the attributes that it lacks.
#[cycle(separating)]
pub(crate) fn separating_values(
    search: &Search,
    lower: &Attributes,
    openness: OpenTag,
    upper: &Attributes,
    upper_openness: OpenTag,
) -> M<Option<Start>>
    requires { AreSampledIn search.now (fields_of lower.now) }
    ensures { IfOk result (λ found.
        IsOutsideAnswer search.now.extensions.now (record_of (fields_of lower.now) openness)
        (record_of (fields_of upper.now) upper_openness) (option_map record_found found)) }
{
    match separating_start(search, lower, openness, upper, upper_openness)? {
        Some(start) => {
            let Start { values, steps } = start;
            let values = fill(search, values, lower)?;
            Ok(Some(Start { values, steps }))
        }
        None => Ok(None),
    }
}

/// A record that the one record type has and the other hasn't, if there is one.
#[cycle(separating)]
fn separating_record(
    search: &Search,
    lower: &Attributes,
    openness: OpenTag,
    upper: &Attributes,
    upper_openness: OpenTag,
) -> M<Option<Found>>
    requires { AreSampledIn search.now (fields_of lower.now) }
    ensures { IfOk result (λ found.
        IsOutsideAnswer search.now.extensions.now (record_of (fields_of lower.now) openness)
        (record_of (fields_of upper.now) upper_openness) (option_map found_of found)) }
{
    match separating_values(search, lower, openness, upper, upper_openness)? {
        Some(start) => {
            let Start { values, steps } = start;
            let expr = RestrictedExpr::Record(values);
            Ok(Some(Found { expr, steps }))
        }
        None => Ok(None),
    }
}

/// A set that the one set type has and the other hasn't, if there is one: of one element, which
/// separates the types of their elements.
#[cycle(separating)]
fn separating_set(search: &Search, lower: &Type, upper: &Type) -> M<Option<Found>>
    requires { IsSampledIn search.now (ty_of lower.now) }
    ensures { IfOk result (λ found.
        IsOutsideAnswer search.now.extensions.now (set_of (ty_of lower.now))
        (set_of (ty_of upper.now)) (option_map found_of found)) }
{
    match separating_expr(search, lower, upper)? {
        Some(found) => Ok(Some(in_set(search.alloc, found)?)),
        None => Ok(None),
    }
}

/// An expression of a value that the one type has and the other hasn't, if there is one.
///
/// It goes down both types together, and what it finds on the way down is all that it builds on the
/// way up, with samples of the other attributes of the records on that way, and with the steps.
#[cycle(separating)]
pub(crate) fn separating_expr(search: &Search, a: &Type, b: &Type) -> M<Option<Found>>
    requires { IsSampledIn search.now (ty_of a.now) }
    ensures { IfOk result (λ found.
        IsOutsideAnswer search.now.extensions.now (ty_of a.now) (ty_of b.now)
        (option_map found_of found)) }
{
    match (a, b) {
        (
            Type::Set {
                element_type: Some(lower),
            },
            Type::Set {
                element_type: Some(upper),
            },
        ) => separating_set(search, lower, upper),
        (
            Type::Record {
                attrs: lower,
                open_attributes: openness,
            },
            Type::Record {
                attrs: upper,
                open_attributes: upper_openness,
            },
        ) => separating_record(search, lower, *openness, upper, *upper_openness),
        _ => {
            let found = separating_leaf(search, a, b)?;
            Ok(found_here(search.alloc, found))
        }
    }
}
