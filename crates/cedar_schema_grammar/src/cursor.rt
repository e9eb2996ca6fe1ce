//! A cursor over tokens.

ghost use Rattle.std.specs.Prelude.{◌≡◌, ◌-◌, length, drop, map, string_bytes};
ghost use Rattle.std.specs.Option.{option_map};
ghost use Rattle.cedar_schema_grammar.specs.Exact.{first_or, loc_at};
ghost use Rattle.cedar_schema_grammar.specs.Grammar.{first_loc, span, between};
ghost use Rattle.cedar_schema_grammar.specs.Reading as spec;
ghost use Rattle.cedar_schema_grammar.specs.Cursor.{Reads};
ghost use Rattle.cedar_schema_grammar.specs.Plain.{name_of};
ghost use Rattle.cedar_schema_tokens.specs.Token.{lexeme_of, token_of};

use crate::fault::Stop;
use crate::tree::Name;
use cedar_ast::Loc;
use cedar_schema_tokens::{Lexeme, Symbol, Token};
use std::alloc::Global;
use std::marker::Model;

/// The tokens that are still to come.
#[derive(Drop)]
pub struct Cursor<'t, 'a> {
    tokens: &'t [Token<'a>],
}

impl<'t, 'a> Model for Cursor<'t, 'a> {
    ghost use Rattle.std.specs.Prelude.{List, map};
    ghost use Rattle.cedar_schema_tokens.specs.Token.{Token as Plain, token_of};

    ghost Value = { List Plain };

    ghost view = { λ c. map token_of c.tokens.now };
}

impl<'t, 'a> Cursor<'t, 'a> {
    /// All of these tokens.
    pub fn new(tokens: &'t [Token<'a>]) -> Cursor<'t, 'a>
        ensures { result ≡ map token_of tokens.now }
    {
        Cursor { tokens }
    }

    /// The tokens that are still to come.
    pub fn here(&self) -> &'t [Token<'a>]
        ensures { map token_of result.now ≡ self.now }
    {
        self.tokens
    }

    /// How many tokens there are to come.
    pub fn left(&self) -> usize
        ensures { result ≡ length self.now }
    {
        self.tokens.len()
    }

    /// Whether this symbol comes next.
    pub fn sees(&self, symbol: Symbol) -> bool
        ensures { result ≡ spec.sees symbol self.now }
    {
        match self.tokens {
            [next, ..] => is_symbol(&next.lexeme, symbol),
            [] => false,
        }
    }

    /// Whether this word comes next.
    pub fn sees_word(&self, word: &str) -> bool
        ensures { result ≡ spec.sees_word word.now self.now }
    {
        match self.tokens {
            [next, ..] => is_word(&next.lexeme, word),
            [] => false,
        }
    }

    /// Whether a quoted text comes next.
    pub fn sees_text(&self) -> bool
        ensures { result ≡ spec.sees_text self.now }
    {
        match self.tokens {
            [next, ..] => is_text(&next.lexeme),
            [] => false,
        }
    }

    /// Whether a set type begins here.
    pub fn begins_set(&self) -> bool
        ensures { result ≡ spec.begins_set self.now }
    {
        match self.tokens {
            [first, second, ..] => {
                is_word(&first.lexeme, "Set") && is_symbol(&second.lexeme, Symbol::Less)
            }
            _ => false,
        }
    }

    /// Passes tokens.
    pub fn skip(&mut self, count: usize)
        ensures { self.new ≡ drop count self.old }
    {
        self.tokens = past(self.tokens, count);
    }

    /// Takes this symbol, where it comes next.
    pub fn eat(&mut self, symbol: Symbol) -> bool
        ensures found { result ≡ spec.sees symbol self.old }
        ensures after { self.new ≡ spec.after (spec.sees symbol) self.old }
    {
        let found = self.sees(symbol);
        if found {
            self.skip(1);
        }
        found
    }

    /// Takes this word, where it comes next.
    pub fn eat_word(&mut self, word: &str) -> bool
        ensures found { result ≡ spec.sees_word word.now self.old }
        ensures after { self.new ≡ spec.after (spec.sees_word word.now) self.old }
    {
        let found = self.sees_word(word);
        if found {
            self.skip(1);
        }
        found
    }

    /// No rule goes on here.
    pub fn unexpected(&self) -> Stop
        ensures { result ≡ Stop.Unexpected (length self.now) }
    {
        Stop::Unexpected(self.left())
    }

    /// Takes this symbol.
    pub fn expect(&mut self, symbol: Symbol) -> Result<(), Stop>
        ensures { Reads (λ _. tt) (spec.expect symbol self.old) result self.new }
    {
        if self.eat(symbol) {
            Ok(())
        } else {
            Err(self.unexpected())
        }
    }

    /// Takes this word.
    pub fn expect_word(&mut self, word: &str) -> Result<(), Stop>
        ensures { Reads (λ _. tt) (spec.expect_word word.now self.old) result self.new }
    {
        if self.eat_word(word) {
            Ok(())
        } else {
            Err(self.unexpected())
        }
    }

    /// Takes an id.
    pub fn id(&mut self, alloc: Global) -> Result<Name, Stop>
        ensures { Reads name_of (spec.id self.old) result self.new }
    {
        match self.tokens {
            [next, ..] => {
                let text = id_in(&next.lexeme).ok_or(self.unexpected())?;
                let loc = next.loc;
                self.skip(1);
                let text = String::from_str(alloc, text)?;
                Ok(Name { text, loc })
            }
            [] => Err(self.unexpected()),
        }
    }

    /// Takes a quoted text.
    pub fn quoted(&mut self, alloc: Global) -> Result<Name, Stop>
        ensures { Reads name_of (spec.quoted self.old) result self.new }
    {
        match self.tokens {
            [next, ..] => {
                let text = text_in(&next.lexeme).ok_or(self.unexpected())?;
                let loc = next.loc;
                self.skip(1);
                let text = String::from_str(alloc, text)?;
                Ok(Name { text, loc })
            }
            [] => Err(self.unexpected()),
        }
    }

    /// Takes an id or a quoted text.
    pub fn name(&mut self, alloc: Global) -> Result<Name, Stop>
        ensures { Reads name_of (spec.name self.old) result self.new }
    {
        match self.tokens {
            [next, ..] => {
                let text = name_in(&next.lexeme).ok_or(self.unexpected())?;
                let loc = next.loc;
                self.skip(1);
                let text = String::from_str(alloc, text)?;
                Ok(Name { text, loc })
            }
            [] => Err(self.unexpected()),
        }
    }

    /// Takes an id, of which only the text counts.
    pub fn id_text(&mut self, alloc: Global) -> Result<String, Stop>
        ensures { Reads string_bytes (spec.id_text self.old) result self.new }
    {
        let name = self.id(alloc)?;
        Ok(name.text)
    }
}

/// The tokens behind the first ones.
fn past<'t, 'a>(tokens: &'t [Token<'a>], count: usize) -> &'t [Token<'a>]
    ensures { result.now ≡ drop count tokens.now }
{
    if count < tokens.len() {
        &tokens[count..]
    } else {
        &tokens[tokens.len()..]
    }
}

/// The place of the first token.
pub(crate) fn first_loc(tokens: &[Token<'_>]) -> Loc
    ensures { result ≡ first_loc (map token_of tokens.now) }
{
    match tokens {
        [next, ..] => next.loc,
        [] => Loc {
            source: 0,
            start: 0,
            stop: 0,
        },
    }
}

/// From the one place to the end of the other.
pub(crate) fn span(from: Loc, to: Loc) -> Loc
    ensures { result ≡ span from to }
{
    Loc {
        source: from.source,
        start: from.start,
        stop: to.stop,
    }
}

/// The place from the first of the tokens to the last one before the rest.
pub(crate) fn between(tokens: &[Token<'_>], rest: &[Token<'_>]) -> Loc
    ensures { result ≡ between (map token_of tokens.now) (map token_of rest.now) }
{
    let taken = tokens.len().saturating_sub(rest.len());
    let last = past(tokens, taken.saturating_sub(1));
    span(first_loc(tokens), first_loc(last))
}

/// The place of the token with which so many are left, or the end.
pub(crate) fn loc_at(tokens: &[Token<'_>], left: usize, end: Loc) -> Loc
    ensures { result ≡ loc_at end left (map token_of tokens.now) }
{
    first_or(past(tokens, tokens.len().saturating_sub(left)), end)
}

/// The place of the first token, or the end where there is none.
fn first_or(tokens: &[Token<'_>], end: Loc) -> Loc
    ensures { result ≡ first_or end (map token_of tokens.now) }
{
    match tokens {
        [next, ..] => next.loc,
        [] => end,
    }
}

fn same_symbol(a: Symbol, b: Symbol) -> bool
    ensures { result ≡ spec.same_symbol a b }
{
    a == b
}

fn is_symbol(lexeme: &Lexeme<'_>, symbol: Symbol) -> bool
    ensures { result ≡ spec.is_symbol symbol (lexeme_of lexeme.now) }
{
    match lexeme {
        Lexeme::Symbol(next) => same_symbol(*next, symbol),
        Lexeme::Id(_) | Lexeme::Text(_) => false,
    }
}

fn is_word(lexeme: &Lexeme<'_>, word: &str) -> bool
    ensures { result ≡ spec.is_word word.now (lexeme_of lexeme.now) }
{
    match lexeme {
        Lexeme::Id(id) => *id == word,
        Lexeme::Text(_) | Lexeme::Symbol(_) => false,
    }
}

fn is_text(lexeme: &Lexeme<'_>) -> bool
    ensures { result ≡ spec.is_text (lexeme_of lexeme.now) }
{
    match lexeme {
        Lexeme::Text(_) => true,
        Lexeme::Id(_) | Lexeme::Symbol(_) => false,
    }
}

fn id_in<'t>(lexeme: &'t Lexeme<'_>) -> Option<&'t str>
    ensures { option_map (λ s. s.now) result ≡ spec.id_of (lexeme_of lexeme.now) }
{
    match lexeme {
        Lexeme::Id(id) => Some(*id),
        Lexeme::Text(_) | Lexeme::Symbol(_) => None,
    }
}

fn text_in<'t>(lexeme: &'t Lexeme<'_>) -> Option<&'t str>
    ensures { option_map (λ s. s.now) result ≡ spec.text_of (lexeme_of lexeme.now) }
{
    match lexeme {
        Lexeme::Text(text) => Some(text.as_str()),
        Lexeme::Id(_) | Lexeme::Symbol(_) => None,
    }
}

fn name_in<'t>(lexeme: &'t Lexeme<'_>) -> Option<&'t str>
    ensures { option_map (λ s. s.now) result ≡ spec.name_of (lexeme_of lexeme.now) }
{
    match lexeme {
        Lexeme::Id(id) => Some(*id),
        Lexeme::Text(text) => Some(text.as_str()),
        Lexeme::Symbol(_) => None,
    }
}
