//! The tokens of a layout.

ghost use Rattle.std.specs.Prelude.{◌≡◌, ◌≢◌, ◌<◌, ◌≤◌, ◌↔◌, IfOk, IsTrue, length, map};
ghost use Rattle.cedar_schema_text_layout.specs.Relaid.{EachSpelled, IsAt, IsPathBetween, IsPathKind, IsRelaid, IsSoFar, Takes, before, tokens};
ghost use Rattle.cedar_schema_text_layout.specs.Words.{spelled_of};
ghost use Rattle.cedar_schema_tokens.specs.declared.spelled.SpelledKind.TheVariants as kinds;
ghost use Rattle.cedar_schema_tokens.specs.declared.token.Symbol.TheVariants as sym;

use crate::edited::Edited;
use crate::scope::Scope;
use cedar_ast::M;
use cedar_schema_tokens::{Spelled, SpelledKind, Symbol};
use std::alloc::Global;

/// Where the next token stands, from a place on; or the end.
fn next_token(pieces: &[Spelled<'_>], from: usize) -> usize
    requires { from ≤ length pieces.now }
    ensures behind { from ≤ result }
    ensures within { result ≤ length pieces.now }
    ensures comments { tokens (before pieces.now result) ≡ tokens (before pieces.now from) }
{
    let mut at = from;
    for _turn in 0..pieces.len() {
        if at >= pieces.len() || pieces[at].kind != SpelledKind::Comment {
            return at;
        }
        at += 1;
    }
    at
}

/// Whether such a token stands between the names of a path.
fn is_separator(kind: SpelledKind) -> bool
    ensures { IsTrue result ↔ (kind ≡ kinds.Symbol sym.PathSeparator) }
{
    kind == SpelledKind::Symbol(Symbol::PathSeparator)
}

/// Whether such a token closes a list.
fn closes_list(kind: SpelledKind) -> bool
    ensures { IsTrue result ↔ (kind ≡ kinds.Symbol sym.CloseBracket) }
{
    kind == SpelledKind::Symbol(Symbol::CloseBracket)
}

/// Whether the kind is that of a part of a path: a name, or what stands between names.
fn is_of_path(kind: SpelledKind) -> bool
    ensures { IsTrue result → IsPathKind kind }
{
    match kind {
        SpelledKind::Id | SpelledKind::Text => true,
        _ => is_separator(kind),
    }
}

/// Where the path ends that begins at a place.
fn path_end(pieces: &[Spelled<'_>], from: usize) -> usize
    requires { IsAt pieces.now from IsPathKind }
    ensures behind { from < result }
    ensures within { result ≤ length pieces.now }
    ensures path { IsPathBetween pieces.now from result }
{
    let mut end = from + 1;
    for _turn in 0..pieces.len() {
        let next = next_token(pieces, end);
        if next >= pieces.len() || !is_of_path(pieces[next].kind) {
            return end;
        }
        if !is_separator(pieces[next].kind) && !is_separator(pieces[end - 1].kind) {
            return end;
        }
        end = next + 1;
    }
    end
}

/// Whether a comma is missing behind such a token, where a closing brace follows.
fn lacks_comma(last: SpelledKind) -> bool {
    match last {
        SpelledKind::Symbol(Symbol::Comma) => false,
        SpelledKind::Symbol(Symbol::OpenBrace) => false,
        SpelledKind::Symbol(Symbol::Semicolon) => false,
        _ => true,
    }
}

/// A text, taken over into its layout.
#[derive(Drop)]
struct Relaying<'a> {
    /// The layout so far.
    edited: Edited<'a>,
    /// Where the next token stands.
    scope: Scope,
    /// What the last token is.
    last: SpelledKind,
}

impl<'a> Relaying<'a> {
    /// Behind a token.
    fn pass(&mut self, token: &Spelled<'a>)
        ensures { self.new.edited ≡ self.old.edited }
    {
        self.scope = self.scope.behind(token);
        self.last = token.kind;
    }

    /// Takes a comment.
    fn take_comment(&mut self, pieces: &[Spelled<'a>], at: usize) -> M<usize>
        requires is { IsAt pieces.now at (λ it. it ≡ kinds.Comment) }
        requires so_far { IsSoFar (before pieces.now at) self.old.edited }
        ensures { IfOk result (λ end. Takes pieces.now at end self.new.edited) }
    {
        self.edited.push_comment(pieces[at])?;
        Ok(at + 1)
    }

    /// Takes a token as it is.
    fn take_token(&mut self, pieces: &[Spelled<'a>], at: usize) -> M<usize>
        requires is { IsAt pieces.now at (λ it. it ≢ kinds.Comment) }
        requires so_far { IsSoFar (before pieces.now at) self.old.edited }
        ensures { IfOk result (λ end. Takes pieces.now at end self.new.edited) }
    {
        let token = pieces[at];
        self.edited.push_token(token)?;
        self.pass(&token);
        Ok(at + 1)
    }

    /// Takes a path that stands alone where a list may.
    fn take_path(&mut self, pieces: &[Spelled<'a>], at: usize) -> M<usize>
        requires is { IsAt pieces.now at IsPathKind }
        requires so_far { IsSoFar (before pieces.now at) self.old.edited }
        ensures { IfOk result (λ end. Takes pieces.now at end self.new.edited) }
    {
        let end = path_end(pieces, at);
        self.edited.push_in_brackets(&pieces[at..end])?;
        self.scope = self.scope.behind_path();
        self.last = SpelledKind::Symbol(Symbol::CloseBracket);
        Ok(end)
    }

    /// Takes a comma, and the closing bracket where one follows.
    fn take_comma(&mut self, pieces: &[Spelled<'a>], at: usize) -> M<usize>
        requires is { IsAt pieces.now at (λ it. it ≡ kinds.Symbol sym.Comma) }
        requires so_far { IsSoFar (before pieces.now at) self.old.edited }
        ensures { IfOk result (λ end. Takes pieces.now at end self.new.edited) }
    {
        let next = next_token(pieces, at + 1);
        if next >= pieces.len() || !closes_list(pieces[next].kind) {
            return self.take_token(pieces, at);
        }
        self.edited.push_without_comma(&pieces[at..next + 1])?;
        self.pass(&pieces[at]);
        self.pass(&pieces[next]);
        Ok(next + 1)
    }

    /// Takes a closing brace.
    fn take_closing(&mut self, pieces: &[Spelled<'a>], at: usize) -> M<usize>
        requires is { IsAt pieces.now at (λ it. it ≡ kinds.Symbol sym.CloseBrace) }
        requires so_far { IsSoFar (before pieces.now at) self.old.edited }
        ensures { IfOk result (λ end. Takes pieces.now at end self.new.edited) }
    {
        if !lacks_comma(self.last) {
            return self.take_token(pieces, at);
        }
        let brace = pieces[at];
        self.edited.push_behind_comma(brace)?;
        self.pass(&brace);
        Ok(at + 1)
    }

    /// Takes an opening brace.
    fn take_opening(&mut self, pieces: &[Spelled<'a>], at: usize) -> M<usize>
        requires is { IsAt pieces.now at (λ it. it ≡ kinds.Symbol sym.OpenBrace) }
        requires so_far { IsSoFar (before pieces.now at) self.old.edited }
        ensures { IfOk result (λ end. Takes pieces.now at end self.new.edited) }
    {
        if !self.scope.begins_shape() {
            return self.take_token(pieces, at);
        }
        let brace = pieces[at];
        self.edited.push_behind_equals(brace)?;
        self.pass(&brace);
        Ok(at + 1)
    }

    /// Takes a symbol.
    fn take_symbol(&mut self, pieces: &[Spelled<'a>], at: usize, symbol: Symbol) -> M<usize>
        requires is { IsAt pieces.now at (λ it. it ≡ kinds.Symbol symbol) }
        requires so_far { IsSoFar (before pieces.now at) self.old.edited }
        ensures { IfOk result (λ end. Takes pieces.now at end self.new.edited) }
    {
        match symbol {
            Symbol::Comma => self.take_comma(pieces, at),
            Symbol::OpenBrace => self.take_opening(pieces, at),
            Symbol::CloseBrace => self.take_closing(pieces, at),
            _ => self.take_token(pieces, at),
        }
    }

    /// Takes what stands at a place, and gives the place behind it.
    fn take(&mut self, pieces: &[Spelled<'a>], at: usize) -> M<usize>
        requires there { at < length pieces.now }
        requires so_far { IsSoFar (before pieces.now at) self.old.edited }
        ensures { IfOk result (λ end. Takes pieces.now at end self.new.edited) }
    {
        match pieces[at].kind {
            SpelledKind::Comment => self.take_comment(pieces, at),
            SpelledKind::Symbol(symbol) => self.take_symbol(pieces, at, symbol),
            _ if self.scope.begins_paths() => self.take_path(pieces, at),
            _ => self.take_token(pieces, at),
        }
    }
}

/// The tokens and comments of a layout.
pub(crate) fn relaid<'a>(alloc: Global, pieces: &[Spelled<'a>]) -> M<Vec<Spelled<'a>>>
    ensures relaid { IfOk result (λ it.
        IsRelaid (map spelled_of pieces.now) (map spelled_of it.items)) }
    ensures spelled { IfOk result (λ it.
        EachSpelled (map spelled_of pieces.now) → EachSpelled (map spelled_of it.items)) }
{
    let mut relaying = Relaying {
        edited: Edited::with_capacity(alloc, pieces.len())?,
        scope: Scope::new(),
        last: SpelledKind::Symbol(Symbol::Semicolon),
    };
    let mut at = 0usize;
    for _turn in 0..pieces.len() {
        if at >= pieces.len() {
            return Ok(relaying.edited.items);
        }
        at = relaying.take(pieces, at)?;
    }
    Ok(relaying.edited.items)
}
