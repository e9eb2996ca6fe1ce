//! Where two types part, and samples of types.

use crate::types::separate::Known;
use cedar_ast::Value;
use cedar_counterexample::{
    AttributesOutside, RecordShape, Step, attributes_outside, outside, sample_attributes,
    sample_value,
};
use cedar_types::Type;
use std::alloc::Global;
use std::collections::BTreeMap;
use std::fmt::Write;
use std::test::Fail;

/// What is reported of steps: the names of attributes and `*` for elements, with `.` between them.
pub(crate) fn steps_text(alloc: Global, steps: &[Step]) -> Result<String, Fail> {
    let mut shown = String::from_str(alloc, "parts at")?;
    let mut separator = ' ';
    for step in steps {
        match step {
            Step::Attribute(name) => write!(shown, "{separator}{name}")?,
            Step::Element => write!(shown, "{separator}*")?,
        }
        separator = '.';
    }
    Ok(shown)
}

/// Adds that there are some values, each by its name after a space.
fn push_names(shown: &mut String, values: &BTreeMap<String, Value>) -> Result<(), Fail> {
    shown.push_str("has")?;
    for name in values.keys() {
        write!(shown, " {name}")?;
    }
    Ok(())
}

/// The steps to where two types part, if they do and the first is sampled.
pub(crate) fn divergence_of(
    alloc: Global,
    known: &Known,
    a: &Type,
    b: &Type,
) -> Result<String, Fail> {
    let (extensions, samples) = (&known.extensions, known.samples.as_slice());
    if !a.is_sampled(extensions, samples) {
        return Ok(String::from_str(alloc, "not sampled")?);
    }
    match outside(alloc, a, b, extensions, samples)? {
        Some(found) => steps_text(alloc, &found.steps),
        None => Ok(String::from_str(alloc, "within")?),
    }
}

/// What is reported of attributes: the steps to where they part, and the values that are found.
fn attributes_text(alloc: Global, found: Option<AttributesOutside>) -> Result<String, Fail> {
    let Some(found) = found else {
        return Ok(String::from_str(alloc, "within")?);
    };
    let mut shown = steps_text(alloc, &found.steps)?;
    shown.push_str(" ")?;
    push_names(&mut shown, &found.attributes)?;
    Ok(shown)
}

/// What is reported of the attributes of two record types, if the first is sampled.
pub(crate) fn parted_attributes(
    alloc: Global,
    known: &Known,
    lower: &Type,
    upper: &Type,
) -> Result<String, Fail> {
    let (extensions, samples) = (&known.extensions, known.samples.as_slice());
    if !lower.is_sampled(extensions, samples) {
        return Ok(String::from_str(alloc, "not sampled")?);
    }
    match (lower, upper) {
        (
            Type::Record {
                attrs: a,
                open_attributes: open,
            },
            Type::Record {
                attrs: b,
                open_attributes: upper_open,
            },
        ) => {
            let lower = RecordShape {
                attributes: a,
                openness: *open,
            };
            let upper = RecordShape {
                attributes: b,
                openness: *upper_open,
            };
            let found = attributes_outside(alloc, lower, upper, extensions, samples)?;
            attributes_text(alloc, found)
        }
        _ => Ok(String::from_str(alloc, "no record types")?),
    }
}

/// Whether the sample of a type is of it, if there is one.
pub(crate) fn sampled(alloc: Global, known: &Known, ty: &Type) -> Result<&'static str, Fail> {
    let (extensions, samples) = (&known.extensions, known.samples.as_slice());
    if !ty.is_sampled(extensions, samples) {
        return Ok("not sampled");
    }
    let value = sample_value(alloc, ty, extensions, samples)?;
    let has = ty.typecheck_value(&value, extensions).ok();
    Ok(if has == Some(true) {
        "a sample of it"
    } else {
        "a sample of no such type"
    })
}

/// The names of the samples of the attributes of a record type, if it is sampled.
pub(crate) fn sample_names(alloc: Global, known: &Known, ty: &Type) -> Result<String, Fail> {
    let (extensions, samples) = (&known.extensions, known.samples.as_slice());
    let mut shown = String::new(alloc);
    if !ty.is_sampled(extensions, samples) {
        shown.push_str("not sampled")?;
        return Ok(shown);
    }
    if let Type::Record { attrs, .. } = ty {
        let values = sample_attributes(alloc, attrs, extensions, samples)?;
        push_names(&mut shown, &values)?;
    }
    Ok(shown)
}
