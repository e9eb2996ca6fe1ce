//! Texts, each with what is written of the fragment that it stands for, or with why it stands for
//! none.

use cedar_ast::Loc;
use cedar_schema_ast::json_schema::{Fragment, RawName};
use cedar_schema_grammar::read as read_members;
use cedar_schema_text::{TextFault, fragment_from_text, fragment_from_text_slice, fragment_of};
use cedar_schema_text_writer::fragment_to_text;
use cedar_schema_tokens::read as read_tokens;
use checked::{holds, same};
use std::alloc::Global;
use std::test::Fail;

/// Texts, each with what is written of its fragment, or with its fault. They have characters that no
/// file of rows shows.
const TEXTS: &[(&str, &str)] = &[
    ("", ""),
    (
        "external entity E enum [\"b\", \"a\", \"b\",];",
        "external entity E enum [\"b\", \"a\", \"b\"];",
    ),
    ("entity\r\n\tA\u{2028};", "entity A;"),
    ("entity\u{85}A\u{a0}\u{3000};", "entity A;"),
    ("entity // x\rA;", "entity A;"),
    ("entity//\u{2028}B\nA;", "entity A;"),
    (
        "action \"\\x41\\u{1F600}\\n\\'\";",
        "action \"A\u{1f600}\\n'\";",
    ),
    (
        "\u{feff}entity A;",
        "BadCharacter(Loc { source: 0, start: 0, stop: 3 })",
    ),
    ("\0", "BadCharacter(Loc { source: 0, start: 0, stop: 1 })"),
    (
        "action \"a\r\n\";",
        "BadEscape(Loc { source: 0, start: 9, stop: 10 })",
    ),
    (
        "entity A, __cedar;",
        "Reserved(Loc { source: 0, start: 10, stop: 17 })",
    ),
    (
        "type T = A; type S = A; type T = A;",
        "Twice(Twice { what: CommonType, name: \"T\", first: Loc { source: 0, start: 5, stop: 6 \
         }, second: Loc { source: 0, start: 29, stop: 30 } })",
    ),
    (
        "entity A",
        "Unexpected(Loc { source: 0, start: 8, stop: 8 })",
    ),
];

/// What is written of the fragment that was read, or why none was.
fn rewritten(alloc: Global, read: Result<Fragment<RawName>, TextFault>) -> Result<String, Fail> {
    match read {
        Ok(fragment) => Ok(fragment_to_text(alloc, &fragment, &[])?),
        Err(fault) => Ok(format!(in alloc; "{fault:?}")?),
    }
}

/// Compares what is written of a text, and of its bytes, with what is expected.
fn check(alloc: Global, text: &str, expected: &str) -> Result<(), Fail> {
    let written = rewritten(alloc, fragment_from_text(alloc, text, 0))?;
    same(text, written.as_str(), expected)?;
    let read = fragment_from_text_slice(alloc, text.as_bytes(), 0);
    same(text, rewritten(alloc, read)?.as_str(), expected)
}

#[test]
fn texts_are_read_as_fragments(rt: HostRuntime) -> Result<(), Fail> {
    for (text, expected) in TEXTS {
        check(rt.alloc(), text, expected)?;
    }
    Ok(())
}

#[test]
fn bytes_that_are_no_text_are_refused(rt: HostRuntime) -> Result<(), Fail> {
    let read = fragment_from_text_slice(rt.alloc(), b"entity A; // \xff", 0);
    same(
        "bytes",
        rewritten(rt.alloc(), read)?.as_str(),
        "NotUtf8(13)",
    )
}

/// What is written of the fragment of the tokens and members of a text without faults.
fn in_steps(alloc: Global, text: &str) -> Result<String, Fail> {
    let (source, start, stop) = (0, 0, 0);
    let nowhere = Loc {
        source,
        start,
        stop,
    };
    let tokens = read_tokens(alloc, text, 0)?;
    let members = read_members(alloc, &tokens, 1, nowhere)?;
    let fragment = fragment_of(alloc, &members)?;
    rewritten(alloc, Ok(fragment))
}

#[test]
fn members_are_taken_as_a_fragment(rt: HostRuntime) -> Result<(), Fail> {
    let text = "entity A;";
    same(text, in_steps(rt.alloc(), text)?.as_str(), text)
}

/// What stands around a level of a type, and the place that is named where there are 129.
const LEVELS: &[(&str, &str, &str)] = &[
    (
        "Set<",
        ">",
        "TooDeep(Loc { source: 0, start: 521, stop: 524 })",
    ),
    (
        "{a:",
        "}",
        "TooDeep(Loc { source: 0, start: 393, stop: 394 })",
    ),
];

/// What is written of a common type with so many levels around `A`, or why it isn't read.
fn nested(alloc: Global, levels: usize, before: &str, behind: &str) -> Result<String, Fail> {
    let before = before.repeat(alloc, levels)?;
    let behind = behind.repeat(alloc, levels)?;
    let text = format!(in alloc; "type T = {before}A{behind};")?;
    rewritten(alloc, fragment_from_text(alloc, text.as_str(), 0))
}

#[test]
fn the_highest_level_is_128(rt: HostRuntime) -> Result<(), Fail> {
    let alloc = rt.alloc();
    for (before, behind, refusal) in LEVELS {
        let highest = nested(alloc, 128, before, behind)?;
        holds(highest.as_str().starts_with("type T = "), before)?;
        same(
            before,
            nested(alloc, 129, before, behind)?.as_str(),
            refusal,
        )?;
    }
    Ok(())
}
