//! The table of a fragment, while it is made.

ghost use Rattle.std.specs.Prelude.{◌≡◌, ◌++◌, ◌∷◌, [], true, false, IfOk, MatchResult};
ghost use Rattle.cedar_places.specs.Words.{IsListed, marked};

use crate::written::{Places, WrittenAt};
use cedar_ast::{M, Memory};
use std::alloc::Global;

/// A table that is being made. Where memory runs out, that is remembered, and told at the end.
#[derive(Drop)]
pub(crate) struct Table {
    /// What is listed so far.
    listed: Vec<WrittenAt>,
    /// Whether memory ran out.
    is_refused: bool,
}

/// Puts an item behind a list, and says whether memory sufficed for it.
fn is_pushed<T: Drop>(list: &mut Vec<T>, item: T) -> bool
    ensures { result ≡ true → list.new.items ≡ list.old.items ++ item ∷ [] }
{
    list.push(item).is_ok()
}

impl Table {
    /// Nothing listed yet.
    pub(crate) fn new(alloc: Global) -> Table
        ensures { result.listed.items ≡ [] }
    {
        Table {
            listed: Vec::new(alloc),
            is_refused: false,
        }
    }

    /// Where the table is.
    pub(crate) fn alloc(&self) -> Global {
        *self.listed.allocator()
    }

    /// Lists what was written at a place.
    pub(crate) fn push(&mut self, it: WrittenAt)
        ensures { IsListed (marked it ∷ []) self.old self.new }
    {
        if !is_pushed(&mut self.listed, it) {
            self.is_refused = true;
        }
    }

    /// Lists what had to be made first.
    pub(crate) fn add(&mut self, made: M<WrittenAt>)
        ensures { MatchResult made (λ it. IsListed (marked it ∷ []) self.old self.new) (λ _.
            self.new.is_refused ≡ true) }
    {
        match made {
            Ok(it) => self.push(it),
            Err(Memory) => self.is_refused = true,
        }
    }

    /// The whole table, where memory sufficed for it.
    pub(crate) fn whole(self) -> M<Places>
        ensures { IfOk result (λ places. (self.is_refused ≡ false)
            × (places.0.items ≡ self.listed.items)) }
    {
        if self.is_refused {
            return Err(Memory);
        }
        Ok(Places(self.listed))
    }
}
