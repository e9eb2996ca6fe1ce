//! Texts and their tokens.

use cedar_ast::M;
use cedar_schema_tokens::{Token, read};
use checked::same;
use std::alloc::Global;
use std::test::Fail;

/// A token: what stands at its place, and what it is.
fn token_text(alloc: Global, text: &str, token: &Token<'_>) -> M<String> {
    let (start, stop) = (token.loc.start as usize, token.loc.stop as usize);
    let there = text.get(start..stop).unwrap_or("?");
    Ok(format!(in alloc; "{there}={:?}", token.lexeme)?)
}

/// The tokens of a text on one line, or the refusal.
fn tokens(alloc: Global, text: &str) -> M<String> {
    match read(alloc, text, 0) {
        Ok(tokens) => {
            let mut texts = Vec::new(alloc);
            for token in &tokens {
                texts.push(token_text(alloc, text, token)?)?;
            }
            Ok(texts.join(alloc, " ")?)
        }
        Err(fault) => Ok(format!(in alloc; "{fault:?}")?),
    }
}

/// Texts, each with its tokens.
const TOKENS: &[(&str, &str)] = &[
    ("", ""),
    ("a_1 _ Z9", r#"a_1=Id("a_1") _=Id("_") Z9=Id("Z9")"#),
    ("a-b", "BadCharacter(Loc { source: 0, start: 1, stop: 2 })"),
    (":::", "::=Symbol(PathSeparator) :=Symbol(Colon)"),
    (
        ": :,;?",
        ":=Symbol(Colon) :=Symbol(Colon) ,=Symbol(Comma) ;=Symbol(Semicolon) ?=Symbol(Question)",
    ),
    (
        "=<>[]",
        "==Symbol(Equals) <=Symbol(Less) >=Symbol(Greater) [=Symbol(OpenBracket) \
         ]=Symbol(CloseBracket)",
    ),
    (
        "{}()@",
        "{=Symbol(OpenBrace) }=Symbol(CloseBrace) (=Symbol(OpenParenthesis) \
         )=Symbol(CloseParenthesis) @=Symbol(At)",
    ),
    (r#""""#, r#"""=Text("")"#),
    (r#""a // b"c"#, r#""a // b"=Text("a // b") c=Id("c")"#),
    (
        r#""\n\r\t\0\\\"\'""#,
        "\"\\n\\r\\t\\0\\\\\\\"\\'\"=Text(\"\\n\\r\\t\\0\\\\\\\"'\")",
    ),
    (
        r#""\x00\x7F\x7f\x41""#,
        "\"\\x00\\x7F\\x7f\\x41\"=Text(\"\\0\\u{7f}\\u{7f}A\")",
    ),
    (r#""\u{0}\u{41}""#, r#""\u{0}\u{41}"=Text("\0A")"#),
    (
        r#""\u{00e4}\u{10FFFF}""#,
        "\"\\u{00e4}\\u{10FFFF}\"=Text(\"ä\\u{10ffff}\")",
    ),
    (
        r#""\u{d7ff}\u{E000}""#,
        "\"\\u{d7ff}\\u{E000}\"=Text(\"\\u{d7ff}\\u{e000}\")",
    ),
    ("\"ä\nb\tc\0\"", "\"ä\nb\tc\0\"=Text(\"ä\\nb\\tc\\0\")"),
    ("a//", r#"a=Id("a")"#),
    ("a// b\r\nc", r#"a=Id("a") c=Id("c")"#),
    (
        "a\u{b}\u{c}\u{1680}\u{200a}\u{2029}\u{202f}\u{205f}b",
        r#"a=Id("a") b=Id("b")"#,
    ),
    (
        "a\u{200b}b",
        "BadCharacter(Loc { source: 0, start: 1, stop: 4 })",
    ),
];

#[test]
fn texts_have_tokens(rt: HostRuntime) -> Result<(), Fail> {
    for (text, expected) in TOKENS {
        same(text, tokens(rt.alloc(), text)?.as_str(), expected)?;
    }
    Ok(())
}
