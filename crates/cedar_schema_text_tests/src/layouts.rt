//! Texts, with their tokens and comments as they are spelled, and as they are laid out.

use cedar_schema_text_layout::lay_out;
use cedar_schema_tokens::{Spelled, read_spelled};
use checked::same;
use std::alloc::Global;
use std::test::Fail;

/// Tokens and comments, each with what it is and how many line feeds stand before it.
fn spelled_text(alloc: Global, all: &[Spelled<'_>]) -> Result<String, Fail> {
    let mut texts = Vec::new(alloc);
    for it in all {
        texts.push(format!(in alloc; "{}={:?}/{}", it.text, it.kind, it.lines)?)?;
    }
    Ok(texts.join(alloc, " ")?)
}

/// The tokens and the comments of a text on one line, or the refusal.
fn spelled(alloc: Global, text: &str) -> Result<String, Fail> {
    match read_spelled(alloc, text, 3) {
        Ok(all) => spelled_text(alloc, &all),
        Err(fault) => Ok(format!(in alloc; "{fault:?}")?),
    }
}

/// Texts, each with its tokens and comments.
const SPELLED: &[(&str, &str)] = &[
    ("", ""),
    (" // a \r\n\n b", "// a =Comment/0 b=Id/2"),
    ("\"\\x41\"//", "\"\\x41\"=Text/0 //=Comment/0"),
    (
        "a::b;",
        "a=Id/0 ::=Symbol(PathSeparator)/0 b=Id/0 ;=Symbol(Semicolon)/0",
    ),
    ("a /", "BadCharacter(Loc { source: 3, start: 2, stop: 3 })"),
];

#[test]
fn texts_are_spelled(rt: HostRuntime) -> Result<(), Fail> {
    for (text, expected) in SPELLED {
        same(text, spelled(rt.alloc(), text)?.as_str(), expected)?;
    }
    Ok(())
}

/// The layout of a text, or the refusal.
fn layout(alloc: Global, text: &str) -> Result<String, Fail> {
    match lay_out(alloc, text, 3) {
        Ok(layout) => Ok(layout),
        Err(fault) => Ok(format!(in alloc; "{fault:?}")?),
    }
}

/// Texts, each with its layout. The text need be no schema.
const LAYOUTS: &[(&str, &str)] = &[
    ("", ""),
    (
        "entity A in B{c:D,}//e",
        "entity A in [B] = {\n  c: D,\n} //e",
    ),
    ("a: :b", "a: : b"),
    ("type [,]", "type []"),
    ("a /", "BadCharacter(Loc { source: 3, start: 2, stop: 3 })"),
];

#[test]
fn texts_have_layouts(rt: HostRuntime) -> Result<(), Fail> {
    for (text, expected) in LAYOUTS {
        same(text, layout(rt.alloc(), text)?.as_str(), expected)?;
    }
    Ok(())
}
