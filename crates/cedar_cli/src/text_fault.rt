//! Why a text isn't read as Cedar's schema syntax, in words.

use crate::repeating::Repeated;
use crate::text::Text;
use cedar_ast::{Loc, M};
use cedar_schema_text::{Missing, Repeated as Kind, TextFault, Twice};
use std::alloc::Global;

/// The word for the kind of a fault.
pub(crate) fn kind_word(fault: &TextFault) -> &'static str {
    match fault {
        TextFault::NotUtf8(_) => "NotUtf8",
        TextFault::TooLong => "TooLong",
        TextFault::BadCharacter(_) => "BadCharacter",
        TextFault::OpenQuote(_) => "OpenQuote",
        TextFault::BadEscape(_) => "BadEscape",
        TextFault::Unexpected(_) => "Unexpected",
        TextFault::TooDeep(_) => "TooDeep",
        TextFault::Twice(_) => "Twice",
        TextFault::Missing(_, _) => "Missing",
        TextFault::Reserved(_) => "Reserved",
        TextFault::Memory => "Memory",
    }
}

/// The place of a fault in the source of a number.
pub(crate) fn loc(source: u32, fault: &TextFault) -> Option<Loc> {
    match fault {
        TextFault::TooLong | TextFault::Memory => None,
        TextFault::NotUtf8(valid_up_to) => {
            let at = u32::try_from(*valid_up_to).ok()?;
            Some(Loc {
                source,
                start: at,
                stop: at,
            })
        }
        TextFault::BadCharacter(loc)
        | TextFault::OpenQuote(loc)
        | TextFault::BadEscape(loc)
        | TextFault::Unexpected(loc)
        | TextFault::TooDeep(loc)
        | TextFault::Missing(_, loc)
        | TextFault::Reserved(loc) => Some(*loc),
        TextFault::Twice(twice) => Some(twice.second),
    }
}

/// The other place of a fault: of what stands twice, where it stands first.
pub(crate) fn first_place(fault: &TextFault) -> Option<Loc> {
    match fault {
        TextFault::Twice(twice) => Some(twice.first),
        _ => None,
    }
}

/// The bytes of a place, as they stand in the text.
fn written_at(text: &str, loc: Loc) -> &str {
    text.get(loc.start as usize..loc.stop as usize)
        .unwrap_or("")
}

/// What may stand but once, in words.
fn kind_words(kind: Kind) -> &'static str {
    match kind {
        Kind::Namespace => "namespace",
        Kind::CommonType => "common type",
        Kind::EntityType => "entity type",
        Kind::Action => "action",
        Kind::Attribute => "attribute",
        Kind::Annotation => "annotation",
        Kind::Part => "part",
    }
}

/// The word of a part that is missing.
fn part_word(part: Missing) -> &'static str {
    match part {
        Missing::Principal => "principal",
        Missing::Resource => "resource",
    }
}

/// Adds why a character begins no token.
fn push_character(words: &mut Text, written: &str) {
    if written == "\u{feff}" {
        words.push_str("the file begins with a byte order mark, which the syntax doesn't have");
    } else {
        let character = Repeated(written);
        write!(
            words,
            "no name, symbol or comment begins with `{character}`"
        );
    }
}

/// Adds what isn't expected at a place.
fn push_unexpected(words: &mut Text, text: &str, written: &str) {
    if written.is_empty() {
        words.push_str("the text ends before its last declaration does");
    } else if text.trim_start().starts_with(['{', '[']) {
        words.push_str("this is no Cedar syntax; if it is JSON, give it a name that ends in ");
        words.push_str("`.json`, or say `--format json`");
    } else {
        write!(words, "no schema goes on with `{}` here", Repeated(written));
    }
}

/// Adds that something stands twice.
fn push_twice(words: &mut Text, twice: &Twice) {
    let (what, name) = (kind_words(twice.what), Repeated(twice.name.as_str()));
    write!(words, "the {what} `{name}` comes twice");
}

/// Adds why a quoted text is none.
fn push_escape(words: &mut Text, written: &str) {
    if written == "\r" {
        words.push_str("a quoted text holds a carriage return: write `\\r`");
    } else {
        write!(words, "`{}` is no escape", Repeated(written));
    }
}

/// Adds what is at fault, in words.
fn push_fault(words: &mut Text, text: &str, fault: &TextFault) {
    match fault {
        TextFault::NotUtf8(valid_up_to) => {
            write!(
                words,
                "byte {valid_up_to} (from 0) belongs to no UTF-8 character"
            );
        }
        TextFault::TooLong => words.push_str("4 GiB are too long"),
        TextFault::BadCharacter(loc) => push_character(words, written_at(text, *loc)),
        TextFault::OpenQuote(_) => words.push_str("this quote isn't closed"),
        TextFault::BadEscape(loc) => push_escape(words, written_at(text, *loc)),
        TextFault::Unexpected(loc) => push_unexpected(words, text, written_at(text, *loc)),
        TextFault::TooDeep(_) => words.push_str("types nest deeper than 128 levels here"),
        TextFault::Twice(twice) => push_twice(words, twice),
        TextFault::Missing(part, _) => {
            write!(
                words,
                "`{}` is missing in this `appliesTo`",
                part_word(*part)
            );
        }
        TextFault::Reserved(loc) => {
            write!(
                words,
                "the name `{}` is reserved",
                Repeated(written_at(text, *loc))
            );
        }
        TextFault::Memory => words.push_str("out of memory"),
    }
}

/// What is at fault, in words.
pub(crate) fn words(alloc: Global, text: &str, fault: &TextFault) -> M<String> {
    let mut words = Text::new(alloc);
    push_fault(&mut words, text, fault);
    words.whole()
}
