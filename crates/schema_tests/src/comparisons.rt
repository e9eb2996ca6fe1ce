//! What two versions of a schema admit apart from each other, on one line.
//!
//! A difference stands as its subject and its cause. `tests/versions.rows` has more of them.

use crate::parts::with_type;
use crate::schemas::schema_of;
use cedar_compare::{Cause, Comparison, Difference, compare};
use cedar_schema::below::{M, RestrictedExpr, Value};
use cedar_schema::{Attributes, OpenTag, Type, ValidatorSchema};
use checked::names::{entity_type, name};
use checked::{same, sample_extensions};
use std::alloc::Global;
use std::test::Fail;

/// A cause, of which uids stand as they print.
fn cause_text(alloc: Global, cause: &Cause) -> M<String> {
    let text = match cause {
        Cause::Choice(uid) => format!(in alloc; "Choice({uid})"),
        Cause::NoSuchEntity { part, steps, uid } => {
            format!(in alloc; "NoSuchEntity({part:?}, {steps:?}, {uid})")
        }
        _ => format!(in alloc; "{cause:?}"),
    };
    Ok(text?)
}

/// A difference.
fn difference_text(alloc: Global, difference: &Difference) -> M<String> {
    let text = match difference {
        Difference::EntityType { witness, cause } => {
            format!(in alloc; "{}: {}", witness.uid(), cause_text(alloc, cause)?)
        }
        Difference::Action { witness, cause } => {
            format!(in alloc; "{}: {}", witness.uid(), cause_text(alloc, cause)?)
        }
        Difference::Environment { witness, cause } => {
            format!(in alloc; "{}: {}", witness.action, cause_text(alloc, cause)?)
        }
    };
    Ok(text?)
}

/// Some differences, one after another.
fn differences_text(alloc: Global, differences: &[Difference]) -> M<String> {
    let mut texts = Vec::new(alloc);
    for difference in differences {
        texts.push(difference_text(alloc, difference)?)?;
    }
    Ok(texts.join(alloc, "; ")?)
}

/// What is reported of a comparison: what is lost, `|`, and what is gained.
fn comparison_text(alloc: Global, comparison: &Comparison) -> M<String> {
    let lost = differences_text(alloc, &comparison.lost)?;
    let gained = differences_text(alloc, &comparison.gained)?;
    Ok(format!(in alloc; "{lost} | {gained}")?)
}

/// A value of the sample extension's type.
fn sample(alloc: Global) -> Result<Value, Fail> {
    let text = String::from_str(alloc, "10.0.0.1")?;
    let args = vec![in alloc; RestrictedExpr::String(text)]?;
    let function = name(alloc, "ip")?;
    Ok(Value::new(RestrictedExpr::ExtensionCall { function, args }))
}

/// What is reported of two schemas, or why they aren't compared.
fn reported(alloc: Global, old: &ValidatorSchema, new: &ValidatorSchema) -> Result<String, Fail> {
    let extensions = sample_extensions(alloc)?;
    let samples = vec![in alloc; sample(alloc)?]?;
    match compare(alloc, old, new, &extensions, &samples) {
        Ok(comparison) => Ok(comparison_text(alloc, &comparison)?),
        Err(fault) => Ok(fault.to_string(alloc)?),
    }
}

/// The old text, the new one, and what is reported.
const VERSIONS: &[(&str, &str, &str)] = &[
    ("entity U { i: ipaddr };", "entity U { i: ipaddr };", " | "),
    (
        "type R = { x: Long }; entity U { s: Set<R> };",
        "type R = { x: Bool }; entity U { s: Set<R> };",
        "U::\"x\": Attributes([Attribute(\"s\"), Element, Attribute(\"x\")]) | \
         U::\"x\": Attributes([Attribute(\"s\"), Element, Attribute(\"x\")])",
    ),
    (
        "entity U; entity V; action v appliesTo { principal: [U, V], resource: U }; action w;",
        "entity U; entity V; action v appliesTo { principal: U, resource: U };",
        "Action::\"w\": Gone; Action::\"v\": Gone | ",
    ),
    (
        "entity R enum [\"a\", \"b\"]; entity U { r: Set<R> };",
        "entity R enum [\"b\"]; entity U { r: Set<R> };",
        "R::\"a\": Choice(R::\"a\"); \
         U::\"x\": NoSuchEntity(Attributes, [Attribute(\"r\"), Element], R::\"a\") | ",
    ),
    (
        "entity U tags Action; action v; action w;",
        "entity U tags Action; action v;",
        "U::\"x\": NoSuchEntity(Tags, [], Action::\"w\"); Action::\"w\": Gone | ",
    ),
    (
        "entity U;",
        "entity U; external entity V;",
        "the new schema is incomplete",
    ),
];

#[test]
fn versions_are_compared(rt: HostRuntime) -> Result<(), Fail> {
    let alloc = rt.alloc();
    for (old, new, expected) in VERSIONS {
        let old = schema_of(alloc, &[*old])?;
        let answer = reported(alloc, &old, &schema_of(alloc, &[*new])?)?;
        same(new, answer.as_str(), expected)?;
    }
    Ok(())
}

/// The schema of one entity type `U` with tags, whose attributes are open or closed.
pub(crate) fn tagged(alloc: Global, open: OpenTag, tags: Type) -> Result<ValidatorSchema, Fail> {
    let attributes = Attributes::with_attributes(alloc, Vec::new(alloc))?;
    with_type(alloc, attributes, open, Some(tags))
}

/// What is reported of a new version with closed attributes, where the old one has tags of numbers.
fn reported_of(alloc: Global, open: OpenTag, tags: Type) -> Result<String, Fail> {
    let old = tagged(alloc, open, Type::Long)?;
    reported(
        alloc,
        &old,
        &tagged(alloc, OpenTag::ClosedAttributes, tags)?,
    )
}

#[test]
fn an_open_record_is_more_than_a_closed_one(rt: HostRuntime) -> Result<(), Fail> {
    let answer = reported_of(rt.alloc(), OpenTag::OpenAttributes, Type::Long)?;
    same("open", answer.as_str(), "U::\"x\": Attributes([]) | ")
}

#[test]
fn types_without_values_are_not_compared(rt: HostRuntime) -> Result<(), Fail> {
    let answer = reported_of(rt.alloc(), OpenTag::ClosedAttributes, Type::Never)?;
    let expected = "the new schema has a type without a sample: __cedar::internal::Never";
    same("Never", answer.as_str(), expected)
}

#[test]
fn types_of_actions_without_actions_have_no_values(rt: HostRuntime) -> Result<(), Fail> {
    let alloc = rt.alloc();
    let action = Type::named_entity_reference(alloc, entity_type(alloc, "Action")?)?;
    let answer = reported_of(alloc, OpenTag::ClosedAttributes, action)?;
    let expected = "the new schema has a type without a sample: Action";
    same("Action", answer.as_str(), expected)
}
