//! Tokens and comments, as they are spelled.

ghost use Rattle.std.specs.Prelude.{◌≡◌, ◌≢◌, ℕ, List, map, IfErr, IfOk};
ghost use Rattle.cedar_schema_tokens.specs.Refused.{IsRefused, HasNoTokens};
ghost use Rattle.cedar_schema_tokens.specs.Spelled.{AreLexemesOf, AreSpelled, GivesFront, HasNone, Spelled as Plain, spelled_of};
ghost use Rattle.cedar_schema_tokens.specs.Spelled as spec;
ghost use Rattle.cedar_schema_tokens.specs.declared.fault.Stop.TheVariants.{Memory};
ghost use Rattle.cedar_schema_tokens.specs.Written.{AreTokens};
ghost use Rattle.cedar_schema_tokens.specs.Token.{Token, lexeme_of};

use crate::fault::{Stop, TokenFault, fault_of};
use crate::gap::blank_len;
use crate::reading::{lexeme, read};
use crate::steps::{Class, byte_at, first, split_run};
use crate::token::{Lexeme, Symbol};
use std::alloc::Global;

/// What is spelled.
#[derive(Clone, Copy, Debug, PartialEq, Eq)]
pub enum SpelledKind {
    /// A comment.
    Comment,
    /// An ASCII letter or `_`, and all ASCII letters, digits and `_` behind it.
    Id,
    /// A quoted text.
    Text,
    /// A symbol.
    Symbol(Symbol),
}

/// A token or a comment of a text, as it is spelled there.
#[derive(Clone, Copy, Debug)]
pub struct Spelled<'a> {
    /// What it is.
    pub kind: SpelledKind,
    /// Its part of the text: of a quoted text with the quotes, of a comment with the slashes and
    /// without the end of its line.
    pub text: &'a str,
    /// How many line feeds stand in the white space before it.
    pub lines: usize,
}

/// What a token is, but for which id or text.
fn kind_of(lexeme: &Lexeme<'_>) -> SpelledKind
    ensures { result ≡ spec.kind_of (lexeme_of lexeme.now) }
{
    match lexeme {
        Lexeme::Id(_) => SpelledKind::Id,
        Lexeme::Text(_) => SpelledKind::Text,
        Lexeme::Symbol(symbol) => SpelledKind::Symbol(*symbol),
    }
}

/// Without the white space at the front; and how many line feeds that has.
#[tactic(auto, unfolding(crate::specs::Spelled::blanks_from))]
fn after_blanks(s: &str) -> (usize, &str)
    ensures { result.1.now ≡ spec.after_blanks s.now }
{
    let mut lines = 0usize;
    let mut rest = s;
    for _turn in 0..s.len() {
        let taken = blank_len(rest);
        if taken == 0 {
            return (lines, rest);
        }
        if first(rest) == b'\n' {
            lines = lines.saturating_add(1);
        }
        rest = &rest[taken..];
    }
    (lines, rest)
}

/// Whether a comment begins a text.
fn begins_comment(s: &str) -> bool
    ensures { result ≡ spec.begins_comment s.now }
{
    first(s) == b'/' && byte_at(s, 1) == b'/'
}

/// What stands at the front of a text that begins with no white space: what it is, and the rest.
fn spelled_at<'a>(alloc: Global, front: &'a str) -> Result<(SpelledKind, &'a str), Stop>
    ensures { GivesFront front.now result }
{
    if begins_comment(front) {
        return Ok((SpelledKind::Comment, split_run(front, Class::Line).1));
    }
    let (lexeme, rest) = lexeme(alloc, front)?;
    Ok((kind_of(&lexeme), rest))
}

/// The tokens and the comments of a text.
fn read_all<'a>(alloc: Global, text: &'a str) -> Result<Vec<Spelled<'a>>, Stop>
    ensures found { IfOk result (λ found. AreSpelled (map spelled_of found.items) text.now) }
    ensures stop { IfErr result (λ stop. stop ≢ Memory → HasNone text.now) }
{
    let mut found = Vec::new(alloc);
    let mut rest = text;
    for _turn in 0..text.len() {
        let (lines, front) = after_blanks(rest);
        if front.is_empty() {
            return Ok(found);
        }
        let (kind, next) = spelled_at(alloc, front)?;
        let (text, _) = front.split_at(front.len() - next.len());
        found.push(Spelled { kind, text, lines })?;
        rest = next;
    }
    Ok(found)
}

/// The tokens and the comments of the text of this number, all of it, as they are spelled.
pub fn read_spelled<'a>(
    alloc: Global,
    text: &'a str,
    source: u32,
) -> Result<Vec<Spelled<'a>>, TokenFault>
    // Each is spelled so, behind white space.
    ensures found { IfOk result (λ found. AreSpelled (map spelled_of found.items) text.now) }
    // What is refused has the fault that is named, at the place that is named.
    ensures fault { IfErr result (IsRefused source text.now) }
    // But for its length, it is no tokens.
    ensures refused { IfErr result (HasNoTokens source text.now) }
{
    let _tokens = read(alloc, text, source)?;
    match read_all(alloc, text) {
        Ok(found) => Ok(found),
        Err(stop) => Err(fault_of(source, text.len(), stop)),
    }
}

/// The tokens that are spelled in a text are those that are read of it.
pub fn what_is_spelled_is_read()
    ensures { (source : ℕ) (all : List ℕ) (spelled : List Plain) (ts : List Token)
        → AreSpelled spelled all → AreTokens source all ts → AreLexemesOf spelled ts }
{}
