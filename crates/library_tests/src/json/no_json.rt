//! Texts that are refused before their shape is looked at: no UTF-8, cut off, or nested too deep.

use cedar_ast::{Extensions, M, Name};
use cedar_json::{JsonSchemaFault, cedar_extensions, fragment_from_json, fragment_from_slice};
use checked::holds;
use checked::names::name;
use std::alloc::Global;
use std::test::Fail;

/// A small schema with each kind of token.
const SMALL: &[u8] =
    b"{\"\": {\"entityTypes\": {\"E\": {\"external\": true}}, \"actions\": {\"a\": \
{\"appliesTo\": null, \"attributes\": {\"n\": [-10, \"\\u00e4\"]}}}}}";

/// The number of texts that begin the small schema and are read, or stop elsewhere than at a token
/// with which they end.
fn cut_texts_that_are_read(alloc: Global) -> usize {
    let mut read = 0usize;
    for end in 0..SMALL.len() {
        match fragment_from_slice(alloc, &SMALL[..end], 0) {
            Err(JsonSchemaFault::NotJson { up_to, .. }) if up_to <= end => {}
            _ => read = read.saturating_add(1),
        }
    }
    read
}

#[test]
fn a_text_that_is_cut_off_is_refused(rt: HostRuntime) -> Result<(), Fail> {
    let alloc = rt.alloc();
    let is_read = fragment_from_slice(alloc, SMALL, 0).is_ok_and(|it| it.0.len() == 1);
    holds(is_read && cut_texts_that_are_read(alloc) == 0, "cut off")
}

/// Bytes that are refused, and whether they are UTF-8 just up to a byte, or no JSON from the first
/// one on.
const BYTES: &[(&[u8], Option<usize>)] = &[
    (b"\xff\xfe{\0}\0", Some(0)),
    (b"{\"\xc3\xa4\xc3\": 1}", Some(4)),
    (b"{\"\xed\xa0\x80\": 1}", Some(2)),
    (b"\xef\xbb\xbf{}", None),
];

/// Whether bytes are refused as such a row says.
fn is_refused(alloc: Global, bytes: &[u8], end: Option<usize>) -> bool {
    match fragment_from_slice(alloc, bytes, 0) {
        Err(JsonSchemaFault::NotUtf8 { valid_up_to }) => end == Some(valid_up_to),
        Err(JsonSchemaFault::NotJson { up_to: 0, .. }) => end.is_none(),
        _ => false,
    }
}

#[test]
fn bytes_that_are_no_utf_8_are_refused(rt: HostRuntime) -> Result<(), Fail> {
    for &(bytes, end) in BYTES {
        holds(is_refused(rt.alloc(), bytes, end), "bytes")?;
    }
    Ok(())
}

/// The text of a fragment whose common type is a set type of so many levels.
fn nesting(alloc: Global, levels: usize) -> M<String> {
    let before = "{\"\": {\"entityTypes\": {}, \"actions\": {}, \"commonTypes\": {\"T\": ";
    let mut text = String::from_str(alloc, before)?;
    for _ in 0..levels {
        text.push_str("{\"type\": \"Set\", \"element\": ")?;
    }
    text.push_str("{\"type\": \"Long\"}")?;
    for _ in 0..levels {
        text.push('}')?;
    }
    text.push_str("}}}")?;
    Ok(text)
}

/// Up to which byte a text could be read that is nested too deep.
fn deep_stop(alloc: Global, text: &str) -> Option<usize> {
    match fragment_from_json(alloc, text, 0) {
        Err(
            JsonSchemaFault::NotJson {
                up_to,
                too_deep: true,
            },
        ) => Some(up_to),
        _ => None,
    }
}

#[test]
fn texts_of_129_levels_stop_at_the_innermost(rt: HostRuntime) -> Result<(), Fail> {
    let alloc = rt.alloc();
    let is_read = fragment_from_json(alloc, nesting(alloc, 124)?.as_str(), 0).is_ok();
    holds(is_read, "128 levels")?;
    let deeper = nesting(alloc, 125)?;
    let innermost = deeper.as_str().find("{\"type\": \"Long\"}");
    let stop = deep_stop(alloc, deeper.as_str());
    holds(stop.is_some() && stop == innermost, "129 levels")
}

/// Whether an extension function of two arguments has the name.
fn takes_two(extensions: &Extensions, name: &Name) -> bool {
    match extensions.func(name) {
        Ok(it) => it.arg_types.len() == 2,
        Err(_) => false,
    }
}

#[test]
fn the_extensions_of_cedar_are_made(rt: HostRuntime) -> Result<(), Fail> {
    let function = name(rt.alloc(), "isInRange")?;
    let extensions = cedar_extensions(rt.alloc())?;
    let fit = extensions.ext_types().len() == 4 && extensions.type_names_fit();
    holds(fit, "types")?;
    holds(takes_two(&extensions, &function), "isInRange")
}
