//! Reading tokens.

ghost use Rattle.std.specs.Prelude.{◌≡◌, ◌<◌, ◌^◌, ℕ, List, length, map, string_bytes, slice_index, IfOk, IfErr};
ghost use Rattle.cedar_schema_tokens.specs.Lexical as spec;
ghost use Rattle.cedar_schema_tokens.specs.Token.{Token as Plain, lexeme_of, token_of};
ghost use Rattle.cedar_schema_tokens.specs.Written.{AreTokens};
ghost use Rattle.cedar_schema_tokens.specs.Refused.{IsRefused, HasNoTokens};
ghost use Rattle.cedar_schema_tokens.specs.Reads.{Reads, Gives};

use crate::escape::escape;
use crate::fault::{Stop, TokenFault, Wrong, fault_of, place};
use crate::gap::after_gap;
use crate::steps::{Class, byte_at, first, first_char, skip, split_run};
use crate::symbol::symbol_of;
use crate::token::{Lexeme, Symbol, Token};
use std::alloc::Global;

/// How many bytes of a text there are for each of its tokens, by a rough estimate.
const BYTES_OF_A_TOKEN: usize = 5;

/// Why a quoted text with `left` bytes from its quote on ends before this part of it.
fn part_stop(left: usize, s: &str) -> Stop
    ensures { result ≡ spec.part_stop left s.now }
{
    if first(s) == b'\r' {
        return Stop::At(Wrong::Part, s.len(), s.len().saturating_sub(1));
    }
    if s.len() <= 1 || first(s) != b'\\' {
        return Stop::At(Wrong::Quote, left, 0);
    }
    let taken = 1 + first_char(skip(s, 1)).len_utf8();
    Stop::At(Wrong::Part, s.len(), s.len().saturating_sub(taken))
}

/// A quoted text, from its opening quote on.
#[tactic(auto, unfolding(crate::specs::Lexical::quoted, crate::specs::Lexical::quoted_from))]
fn quoted(alloc: Global, s: &str) -> Result<(String, &str), Stop>
    requires { slice_index s.now 0 ≡ 34 }
    ensures { Reads string_bytes (spec.quoted s.now) result }
{
    let mut found = String::new(alloc);
    let mut rest = skip(s, 1);
    'turn: for _turn in 0..s.len() {
        let (plain, after) = split_run(rest, Class::Plain);
        found.push_str(plain)?;
        if first(after) == b'"' {
            return Ok((found, skip(after, 1)));
        }
        match escape(after) {
            Some((c, next)) => {
                found.push(c)?;
                rest = next;
            }
            None => return Err(part_stop(s.len(), after)),
        }
    }
    Err(Stop::At(Wrong::Quote, s.len(), 0))
}

/// What the token at the front is.
#[tactic(auto, unfolding(crate::specs::Lexical::lexeme_at))]
pub(crate) fn lexeme<'a>(alloc: Global, s: &'a str) -> Result<(Lexeme<'a>, &'a str), Stop>
    ensures { Reads lexeme_of (spec.lexeme_at s.now) result }
{
    let byte = first(s);
    if byte.is_ascii_alphabetic() || byte == b'_' {
        let (id, rest) = split_run(s, Class::Word);
        return Ok((Lexeme::Id(id), rest));
    }
    if byte == b'"' {
        let (text, rest) = quoted(alloc, s)?;
        return Ok((Lexeme::Text(text), rest));
    }
    if byte == b':' && byte_at(s, 1) == b':' {
        return Ok((Lexeme::Symbol(Symbol::PathSeparator), skip(s, 2)));
    }
    match symbol_of(byte) {
        Some(symbol) => Ok((Lexeme::Symbol(symbol), skip(s, 1))),
        None => {
            let behind = s.len().saturating_sub(first_char(s).len_utf8());
            Err(Stop::At(Wrong::Character, s.len(), behind))
        }
    }
}

/// The tokens of a text, as the function on bytes gives them.
#[tactic(auto, unfolding(crate::specs::Lexical::tokens, crate::specs::Lexical::tokens_from))]
fn read_all<'a>(alloc: Global, text: &'a str, source: u32) -> Result<Vec<Token<'a>>, Stop>
    requires { length text.now < 2 ^ 32 }
    ensures { Gives (λ found. map token_of found.items) (spec.tokens source text.now) result }
{
    let mut found = Vec::with_capacity(alloc, text.len() / BYTES_OF_A_TOKEN)?;
    let mut rest = text;
    for _turn in 0..text.len() {
        let front = after_gap(rest);
        if front.is_empty() {
            return Ok(found);
        }
        let (next, behind) = lexeme(alloc, front)?;
        found.push(Token {
            lexeme: next,
            loc: place(source, text.len(), front.len(), behind.len()),
        })?;
        rest = behind;
    }
    Ok(found)
}

/// The tokens of the text of this number, all of it.
pub fn read<'a>(alloc: Global, text: &'a str, source: u32) -> Result<Vec<Token<'a>>, TokenFault>
    // What is read is written so, each token at its place.
    ensures found { IfOk result (λ found. AreTokens source text.now (map token_of found.items)) }
    ensures short { IfOk result (λ _. length text.now < 2 ^ 32) }
    // What is refused has the fault that is named, at the place that is named.
    ensures fault { IfErr result (IsRefused source text.now) }
    // But for its length, it is no tokens.
    ensures refused { IfErr result (HasNoTokens source text.now) }
{
    if text.len() > 0xFFFF_FFFF {
        return Err(TokenFault::TooLong);
    }
    match read_all(alloc, text, source) {
        Ok(found) => Ok(found),
        Err(stop) => Err(fault_of(source, text.len(), stop)),
    }
}

/// A text has tokens in one way at most.
pub fn one_reading()
    ensures { (source : ℕ) (all : List ℕ) (ts us : List Plain) → AreTokens source all ts
        → AreTokens source all us → ts ≡ us }
{}
