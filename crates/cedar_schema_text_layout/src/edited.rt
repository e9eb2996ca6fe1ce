//! The tokens and comments of a layout, as far as they are known.

ghost use Rattle.std.specs.Prelude.{◌≡◌, ◌≢◌, ◌≤◌, ◌++◌, ◌∷◌, [], IfOk, OnOk, length, map};
ghost use Rattle.std.specs.List.{AllByRecursion};
ghost use Rattle.cedar_schema_text_layout.specs.Relaid.{GoesOn, IsEdit, IsListEnd, IsOfPath, IsSoFar, comma_added, equals_added, sign, tokens};
ghost use Rattle.cedar_schema_text_layout.specs.Words.{spelled_of, spelling};
ghost use Rattle.cedar_schema_tokens.specs.declared.spelled.SpelledKind.TheVariants as kind;

use cedar_ast::M;
use cedar_schema_tokens::{Spelled, SpelledKind, Symbol};
use std::alloc::Global;

/// A symbol that a layout adds.
fn added(symbol: Symbol, text: &str) -> Spelled<'_>
    requires { text.now ≡ spelling symbol }
    ensures { spelled_of result ≡ sign symbol }
{
    Spelled {
        kind: SpelledKind::Symbol(symbol),
        text,
        lines: 0,
    }
}

/// What a layout has so far.
#[derive(Drop)]
pub(crate) struct Edited<'a> {
    /// Its tokens and comments.
    pub items: Vec<Spelled<'a>>,
    /// How many of them there are up to the last token.
    pub end: usize,
}

impl<'a> Edited<'a> {
    /// Nothing, with room for so many.
    pub(crate) fn with_capacity(alloc: Global, count: usize) -> M<Edited<'a>>
        ensures { IfOk result (IsSoFar []) }
    {
        Ok(Edited {
            items: Vec::with_capacity(alloc, count)?,
            end: 0,
        })
    }

    /// The last token, so far.
    fn push_last(&mut self, token: Spelled<'a>) -> M<()>
        ensures items { OnOk result
            (self.new.items.items ≡ self.old.items.items ++ token.entry ∷ []) }
        ensures end { OnOk result (self.new.end ≡ length self.new.items.items) }
    {
        self.items.push(token)?;
        self.end = self.items.len();
        Ok(())
    }

    /// A comment follows.
    pub(crate) fn push_comment(&mut self, comment: Spelled<'a>) -> M<()>
        requires is { comment.kind ≡ kind.Comment }
        ensures { OnOk result (GoesOn self.old (spelled_of comment.entry ∷ []) self.new) }
    {
        self.items.push(comment)?;
        Ok(())
    }

    /// A token follows.
    pub(crate) fn push_token(&mut self, token: Spelled<'a>) -> M<()>
        requires is { token.kind ≢ kind.Comment }
        ensures { OnOk result (GoesOn self.old (spelled_of token.entry ∷ []) self.new) }
    {
        self.push_last(token)
    }

    /// A closing brace follows, and a comma stands behind the token before it.
    pub(crate) fn push_behind_comma(&mut self, brace: Spelled<'a>) -> M<()>
        requires within { self.old.end ≤ length self.old.items.items }
        requires is { IsEdit (comma_added (spelled_of brace)) }
        ensures { OnOk result (GoesOn self.old (spelled_of brace.entry ∷ []) self.new) }
    {
        self.items.insert(self.end, added(Symbol::Comma, ","))?;
        self.push_last(brace)
    }

    /// An opening brace follows behind `=`.
    pub(crate) fn push_behind_equals(&mut self, brace: Spelled<'a>) -> M<()>
        requires is { IsEdit (equals_added (spelled_of brace)) }
        ensures { OnOk result (GoesOn self.old (spelled_of brace.entry ∷ []) self.new) }
    {
        self.items.push(added(Symbol::Equals, "="))?;
        self.push_last(brace)
    }

    /// One item follows, and stands in brackets.
    pub(crate) fn push_in_brackets(&mut self, item: &[Spelled<'a>]) -> M<()>
        requires some { tokens (map spelled_of item.now) ≢ [] }
        requires is { AllByRecursion IsOfPath (tokens (map spelled_of item.now)) }
        ensures { OnOk result (GoesOn self.old (map spelled_of item.now) self.new) }
    {
        self.items.push(added(Symbol::OpenBracket, "["))?;
        self.items.extend_from_slice(item)?;
        self.push_last(added(Symbol::CloseBracket, "]"))
    }

    /// A comma follows, comments, and then a closing bracket. The comma is left out.
    pub(crate) fn push_without_comma(&mut self, list_end: &[Spelled<'a>]) -> M<()>
        requires is { IsListEnd (map spelled_of list_end.now) }
        ensures { OnOk result (GoesOn self.old (map spelled_of list_end.now) self.new) }
    {
        self.items.extend_from_slice(&list_end[1..])?;
        self.end = self.items.len();
        Ok(())
    }
}
