//! Why a text isn't read as a fragment, in words.

use crate::cedar_syntax::is_cedar;
use crate::repeating::Repeated;
use crate::shape::Shape;
use crate::slip::push_slip;
use crate::text::Text;
use cedar_ast::{Loc, M};
use cedar_json::{Expected, FaultKind, JsonSchemaFault, Place};
use std::alloc::Global;

/// The word for the kind of a fault.
pub(crate) fn kind_word(fault: &JsonSchemaFault) -> &'static str {
    match fault {
        JsonSchemaFault::TooLong => "TooLong",
        JsonSchemaFault::NotUtf8 { .. } => "NotUtf8",
        JsonSchemaFault::NotJson { .. } => "NotJson",
        JsonSchemaFault::TwiceInObject { .. } => "TwiceInObject",
        JsonSchemaFault::OutOfShape { .. } => "OutOfShape",
        JsonSchemaFault::Memory => "Memory",
    }
}

/// What is asked for, with its article.
fn expected_words(expected: Expected) -> &'static str {
    match expected {
        Expected::Text => "a string",
        Expected::Object => "an object",
        Expected::Array => "an array",
        Expected::Flag => "`true` or `false`",
        Expected::TextOrNull => "a string or `null`",
        Expected::NoNull => "a value other than `null`",
    }
}

/// What is said of a value, or of the key of one of its members.
fn shape_words(kind: FaultKind) -> &'static str {
    match kind {
        FaultKind::Missing(_) => "a field is missing",
        FaultKind::UnknownField(_, _) => "the format has no such field here",
        FaultKind::Wants(expected) => expected_words(expected),
        FaultKind::NoName => "this is no name",
        FaultKind::NoId => "this is no identifier",
        FaultKind::ReservedId => "`__cedar` is reserved",
        FaultKind::KeyIsNoId(_) => "this key is no identifier",
        FaultKind::NoChoices => "at least one id has to be listed",
        FaultKind::ReservedName => "a name with the part `__cedar` is reserved",
        FaultKind::NoLong => "this is no whole number of 64 bits",
        FaultKind::KeyIsReserved(_) => "this key is reserved",
        FaultKind::KeyIsTypeWord(_) => "this key is the name of a type of Cedar's own",
        FaultKind::KeyIsNoName(_) => "this key is neither empty nor a name",
        FaultKind::KeyIsReservedName(_) => "this key is a reserved name",
    }
}

/// The bytes of a place, as they stand in the text.
fn written_at(text: &str, loc: Option<Loc>) -> &str {
    match loc {
        Some(loc) => text
            .get(loc.start as usize..loc.stop as usize)
            .unwrap_or(""),
        None => "",
    }
}

/// Adds where a value stands, as the end of a sentence.
fn push_pointer(words: &mut Text, place: &Place) {
    if place.pointer.is_empty() {
        words.push_str("at the top");
    } else {
        write!(words, "at {}", Repeated(place.pointer.as_str()));
    }
}

/// Adds the words for a value that isn't as the format wants it.
fn push_shape(words: &mut Text, text: &str, place: &Place, kind: FaultKind) {
    match kind {
        FaultKind::Missing(name) => {
            words.push_str("the field \"");
            words.push_str(name);
            words.push_str("\" is missing ");
        }
        FaultKind::Wants(expected) => {
            words.push_str(expected_words(expected));
            words.push_str(" has to stand ");
        }
        FaultKind::NoChoices => {
            words.push_str(shape_words(kind));
            words.push_str(", ");
        }
        _ => {
            let written = Repeated(written_at(text, place.loc));
            write!(words, "{written}: {}, ", shape_words(kind));
        }
    }
    push_pointer(words, place);
}

/// Adds why a text is no JSON; where it is Cedar's own syntax of schemas, how to convert it.
fn push_no_json(words: &mut Text, text: &str, up_to: usize) {
    if text.starts_with('\u{feff}') {
        words.push_str("the file begins with a byte order mark, which JSON doesn't have");
    } else if is_cedar(text) {
        words.push_str("this is no JSON but Cedar's schema syntax: give it a name that ends in ");
        words.push_str("`.cedarschema`, or say `--format text`");
    } else {
        push_slip(words, text, up_to);
    }
}

/// Adds what may be meant where a namespace is named as a field of a definition.
fn push_no_namespace(words: &mut Text, pointer: &str) {
    let key = pointer.strip_prefix('/').unwrap_or("");
    if !matches!(Shape::Definition.of_member(key), Shape::Other) {
        words.push_str("; to declare in no namespace, wrap the document in `{\"\": ..}`");
    }
}

/// Adds what is at fault, in words.
fn push_fault(words: &mut Text, text: &str, fault: &JsonSchemaFault) {
    match fault {
        JsonSchemaFault::TooLong => words.push_str("4 GiB are too long"),
        JsonSchemaFault::NotUtf8 { valid_up_to } => {
            write!(
                words,
                "byte {valid_up_to} (from 0) belongs to no UTF-8 character"
            );
        }
        JsonSchemaFault::NotJson { too_deep: true, .. } => {
            words.push_str("this is nested deeper than 128 levels");
        }
        JsonSchemaFault::NotJson { up_to, .. } => push_no_json(words, text, *up_to),
        JsonSchemaFault::TwiceInObject { at, .. } => {
            let key = Repeated(written_at(text, at.loc));
            write!(words, "the key {key} comes twice in the object ");
            push_pointer(words, at);
        }
        JsonSchemaFault::OutOfShape { at, fault } => {
            push_shape(words, text, at, *fault);
            push_no_namespace(words, at.pointer.as_str());
        }
        JsonSchemaFault::Memory => words.push_str("out of memory"),
    }
}

/// What is at fault, in words.
pub(crate) fn fault_text(alloc: Global, text: &str, fault: &JsonSchemaFault) -> M<String> {
    let mut words = Text::new(alloc);
    push_fault(&mut words, text, fault);
    words.whole()
}

/// A place of some bytes of a file.
fn bytes_of(source: u32, start: usize, stop: usize) -> Option<Loc> {
    Some(Loc {
        source,
        start: u32::try_from(start).ok()?,
        stop: u32::try_from(stop).ok()?,
    })
}

/// The place of a fault in the source of a number.
pub(crate) fn fault_loc(source: u32, text: &str, fault: &JsonSchemaFault) -> Option<Loc> {
    match fault {
        JsonSchemaFault::TooLong | JsonSchemaFault::Memory => None,
        JsonSchemaFault::NotUtf8 { valid_up_to } => bytes_of(source, *valid_up_to, *valid_up_to),
        JsonSchemaFault::NotJson { up_to, .. } => {
            bytes_of(source, *up_to, up_to.saturating_add(1).min(text.len()))
        }
        JsonSchemaFault::TwiceInObject { at, .. } | JsonSchemaFault::OutOfShape { at, .. } => {
            at.loc
        }
    }
}
