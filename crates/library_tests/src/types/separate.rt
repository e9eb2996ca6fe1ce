//! Values that separate two types.

use crate::types::test_values::{made, value};
use cedar_ast::{Extensions, Value};
use cedar_counterexample::{separating_value, value_outside};
use cedar_types::Type;
use checked::{holds, sample_extensions};
use std::alloc::Global;
use std::test::Fail;

/// The extensions, and the one value of an extension type that is handed in.
#[derive(Drop)]
pub(crate) struct Known {
    pub(crate) extensions: Extensions,
    pub(crate) samples: Vec<Value>,
}

/// The sample extension, and an address.
pub(crate) fn what_is_known(alloc: Global) -> Result<Known, Fail> {
    let address = Value::new(value(alloc, "ip=x")?);
    Ok(Known {
        samples: vec![in alloc; address]?,
        extensions: sample_extensions(alloc)?,
    })
}

/// Whether a value was found that by membership is of the one type and not of the other.
fn found(known: &Known, a: &Type, b: &Type, value: Option<Value>) -> &'static str {
    let Some(value) = value else {
        return "no value";
    };
    let has = a.typecheck_value(&value, &known.extensions).ok();
    let lacks = b.typecheck_value(&value, &known.extensions).ok();
    if has == Some(true) && lacks == Some(false) {
        "a value"
    } else {
        "a value that doesn't separate"
    }
}

/// Whether a value separates the one type from the other, if both are stated.
pub(crate) fn separated(alloc: Global, known: &Known, a: &Type, b: &Type) -> Result<String, Fail> {
    let (extensions, samples) = (&known.extensions, known.samples.as_slice());
    if !a.is_stated(extensions, samples) || !b.is_stated(extensions, samples) {
        return Ok(String::from_str(alloc, "not stated")?);
    }
    let value = separating_value(alloc, a, b, extensions, samples)?;
    Ok(String::from_str(alloc, found(known, a, b, value))?)
}

/// Whether a value of the one type is outside the other, if the one is sampled.
pub(crate) fn outside(alloc: Global, known: &Known, a: &Type, b: &Type) -> Result<String, Fail> {
    let (extensions, samples) = (&known.extensions, known.samples.as_slice());
    if !a.is_sampled(extensions, samples) {
        return Ok(String::from_str(alloc, "not sampled")?);
    }
    let value = value_outside(alloc, a, b, extensions, samples)?;
    Ok(String::from_str(alloc, found(known, a, b, value))?)
}

#[test]
fn extension_types_are_stated_with_samples_alone(rt: HostRuntime) -> Result<(), Fail> {
    let known = what_is_known(rt.alloc())?;
    let addresses = made(rt.alloc(), "set-ipaddr")?;
    let is_stated = addresses.is_stated(&known.extensions, &known.samples);
    let is_without = addresses.is_stated(&known.extensions, &[]);
    holds(is_stated && !is_without, "a sample alone")
}
