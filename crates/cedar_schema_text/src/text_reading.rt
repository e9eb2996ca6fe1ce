//! Fragments, read from texts.

ghost use Rattle.std.specs.Prelude.{◌≡◌, ◌<◌, ◌≤◌, ◌^◌, length, map, IfOk, IfErr};
ghost use Rattle.cedar_schema_grammar.specs.Plain.{member_of};
ghost use Rattle.cedar_schema_grammar.specs.Tree.{highest, level_of_member};
ghost use Rattle.cedar_schema_text.specs.Shown.{fragment_shown};
ghost use Rattle.cedar_schema_text.specs.TextFormat.{HasMembers, IsFaultOf, StandsFor, StandsForNone, end_of, highest_level};
ghost use Rattle.cedar_schema_text.specs.Told.{of_grammar, of_meaning, of_tokens};
ghost use Rattle.cedar_schema_tokens.specs.Token.{token_of};
ghost use Rattle.cedar_schema_tokens.specs.Written.{AreTokens};

use crate::fault::{MeaningFault, Missing, Twice};
use crate::meaning::fragment_of;
use cedar_ast::Loc;
use cedar_schema_ast::json_schema::{Fragment, RawName};
use cedar_schema_grammar::{GrammarFault, Member, read as read_members};
use cedar_schema_tokens::{Token, TokenFault, read as read_tokens};
use std::alloc::Global;

/// The highest level of types that is read.
const HIGHEST_LEVEL: usize = 128;

/// Why no fragment is read from a text (Cedar reference, "Schema format").
#[derive(Debug, Drop, PartialEq, Eq)]
pub enum TextFault {
    /// The text has 4 GiB or more.
    TooLong,
    /// The bytes are no UTF-8. So many of them are: all those before the first that isn't part of a
    /// character.
    NotUtf8(usize),
    /// A character begins no token.
    BadCharacter(Loc),
    /// A quoted text isn't closed: from its quote to the end.
    OpenQuote(Loc),
    /// A backslash begins no escape, with the character behind it; or a quoted text holds a
    /// carriage return.
    BadEscape(Loc),
    /// No schema goes on with the token here, or the text ends too early.
    Unexpected(Loc),
    /// A `Set` or a `{` opens a level of types beyond the limit.
    TooDeep(Loc),
    /// Something stands twice that may stand but once.
    Twice(Twice),
    /// An `appliesTo` lacks a part. It stands from its word to its `}`.
    Missing(Missing, Loc),
    /// A name that is declared, or that of a namespace, is reserved.
    Reserved(Loc),
    /// Out of memory.
    Memory,
}

/// The refusal of a text that has no tokens.
fn no_tokens(fault: TokenFault) -> TextFault
    ensures { result ≡ of_tokens fault }
{
    match fault {
        TokenFault::BadCharacter(loc) => TextFault::BadCharacter(loc),
        TokenFault::OpenQuote(loc) => TextFault::OpenQuote(loc),
        TokenFault::BadEscape(loc) => TextFault::BadEscape(loc),
        TokenFault::TooLong => TextFault::TooLong,
        TokenFault::Memory => TextFault::Memory,
    }
}

/// The refusal of a text whose tokens are no schema.
fn no_schema(fault: GrammarFault) -> TextFault
    ensures { result ≡ of_grammar fault }
{
    match fault {
        GrammarFault::Unexpected(loc) => TextFault::Unexpected(loc),
        GrammarFault::TooDeep(loc) => TextFault::TooDeep(loc),
        GrammarFault::Memory => TextFault::Memory,
    }
}

/// The refusal of a text in whose members something is at fault.
fn no_meaning(fault: MeaningFault) -> TextFault
    ensures { result ≡ of_meaning fault }
{
    match fault {
        MeaningFault::Twice(twice) => TextFault::Twice(twice),
        MeaningFault::Missing(which, loc) => TextFault::Missing(which, loc),
        MeaningFault::Reserved(loc) => TextFault::Reserved(loc),
        MeaningFault::Memory => TextFault::Memory,
    }
}

/// The place behind a text.
fn end_of(text: &str, source: u32) -> Loc
    requires { length text.now < 2 ^ 32 }
    ensures { result ≡ end_of source text.now }
{
    let end = text.len() as u32;
    Loc {
        source,
        start: end,
        stop: end,
    }
}

/// The schema that the tokens of a text are.
fn members_of(
    alloc: Global,
    text: &str,
    source: u32,
    tokens: &[Token<'_>],
) -> Result<Vec<Member>, TextFault>
    requires short { length text.now < 2 ^ 32 }
    requires tokens { AreTokens source text.now (map token_of tokens.now) }
    ensures found { IfOk result (λ all. HasMembers source text.now (map member_of all.items)) }
    ensures nests { IfOk result (λ all.
        highest level_of_member (map member_of all.items) ≤ highest_level) }
    ensures fault { IfErr result (IsFaultOf source text.now) }
    ensures exact { IfErr result (StandsForNone source text.now) }
{
    match read_members(alloc, tokens, HIGHEST_LEVEL, end_of(text, source)) {
        Ok(members) => Ok(members),
        Err(fault) => Err(no_schema(fault)),
    }
}

/// The schema that a text is.
fn members_in(alloc: Global, text: &str, source: u32) -> Result<Vec<Member>, TextFault>
    ensures short { IfOk result (λ _. length text.now < 2 ^ 32) }
    ensures found { IfOk result (λ all. HasMembers source text.now (map member_of all.items)) }
    ensures nests { IfOk result (λ all.
        highest level_of_member (map member_of all.items) ≤ highest_level) }
    ensures fault { IfErr result (IsFaultOf source text.now) }
    ensures exact { IfErr result (StandsForNone source text.now) }
{
    match read_tokens(alloc, text, source) {
        Ok(tokens) => members_of(alloc, text, source, &tokens),
        Err(fault) => Err(no_tokens(fault)),
    }
}

/// The fragment that the schema stands for that a text is.
fn meaning_in(
    alloc: Global,
    text: &str,
    source: u32,
    members: &[Member],
) -> Result<Fragment<RawName>, TextFault>
    requires short { length text.now < 2 ^ 32 }
    requires found { HasMembers source text.now (map member_of members.now) }
    requires nests { highest level_of_member (map member_of members.now) ≤ highest_level }
    ensures fragment { IfOk result (λ it. StandsFor source text.now (fragment_shown it)) }
    ensures fault { IfErr result (IsFaultOf source text.now) }
    ensures exact { IfErr result (StandsForNone source text.now) }
{
    match fragment_of(alloc, members) {
        Ok(fragment) => Ok(fragment),
        Err(fault) => Err(no_meaning(fault)),
    }
}

/// The fragment that a text in Cedar's schema syntax stands for, with where each part of it was
/// written. The text has this number.
///
/// A text is refused exactly where it stands for none, each time with a reason that is true of it
/// and with its place. Memory may run out.
///
/// Source: Cedar reference, "Schema format".
pub fn fragment_from_text(
    alloc: Global,
    text: &str,
    source: u32,
) -> Result<Fragment<RawName>, TextFault>
    ensures fragment { IfOk result (λ it. StandsFor source text.now (fragment_shown it)) }
    ensures fault { IfErr result (IsFaultOf source text.now) }
    ensures exact { IfErr result (StandsForNone source text.now) }
{
    let members = members_in(alloc, text, source)?;
    meaning_in(alloc, text, source, &members)
}

/// The fragment that bytes stand for: as `fragment_from_text` of the text that they are. Bytes that
/// are no UTF-8 are refused with `NotUtf8`.
pub fn fragment_from_text_slice(
    alloc: Global,
    bytes: &[u8],
    source: u32,
) -> Result<Fragment<RawName>, TextFault>
    ensures fragment { IfOk result (λ it. StandsFor source bytes.now (fragment_shown it)) }
    ensures fault { IfErr result (IsFaultOf source bytes.now) }
    ensures exact { IfErr result (StandsForNone source bytes.now) }
{
    match std::str::from_utf8(bytes) {
        Ok(text) => fragment_from_text(alloc, text, source),
        Err(fault) => Err(TextFault::NotUtf8(fault.valid_up_to())),
    }
}
