//! The iterators over values by name. Each is seen as the list of what it has left.

ghost use Rattle.std.specs.Prelude.{length, ◌≡◌};
ghost use Rattle.cedar_name_map.specs.Words.{TakesFirst, at_most, deref, deref_pair, keys_of};

use std::iter::FusedIterator;
use std::marker::Model;
use std::slice;

/// The pairs of a name and its value that are left, in the order of the names.
#[derive(Drop)]
pub struct Entries<'a, V> {
    rest: slice::Iter<'a, (String, V)>,
}

impl<'a, V> Model for Entries<'a, V> {
    ghost use Rattle.cedar_name_map.specs.Words.{Global, List, String, iter_rest};

    ghost Value = { List (String Global × V) };

    ghost view = { λ a. iter_rest a.rest };
}

impl<'a, V> Entries<'a, V> {
    /// All of these pairs.
    pub fn new(entries: &'a [(String, V)]) -> Self
        ensures { result ≡ entries.now }
    {
        Entries {
            rest: entries.iter(),
        }
    }
}

impl<'a, V> Iterator for Entries<'a, V> {
    type Item = (&'a String, &'a V);

    ghost next_gives = { TakesFirst deref_pair };

    ghost remaining = { λ s. at_most (length s) };

    fn next(&mut self) -> Option<(&'a String, &'a V)> {
        let entry = self.rest.next()?;
        Some((&entry.0, &entry.1))
    }

    fn size_hint(&self) -> (usize, Option<usize>) {
        let len = self.rest.len();
        (len, Some(len))
    }
}

impl<'a, V> FusedIterator for Entries<'a, V> {}

/// The names that are left, in their order.
#[derive(Drop)]
pub struct Names<'a, V> {
    rest: slice::Iter<'a, (String, V)>,
}

impl<'a, V> Model for Names<'a, V> {
    ghost use Rattle.cedar_name_map.specs.Words.{Global, List, String, iter_rest, keys_of};

    ghost Value = { List (String Global) };

    ghost view = { λ a. keys_of (iter_rest a.rest) };
}

impl<'a, V> Names<'a, V> {
    /// The names of these pairs.
    pub fn new(entries: &'a [(String, V)]) -> Self
        ensures { result ≡ keys_of entries.now }
    {
        Names {
            rest: entries.iter(),
        }
    }
}

impl<'a, V> Iterator for Names<'a, V> {
    type Item = &'a String;

    ghost next_gives = { TakesFirst deref };

    ghost remaining = { λ s. at_most (length s) };

    fn next(&mut self) -> Option<&'a String> {
        let entry = self.rest.next()?;
        Some(&entry.0)
    }
}

impl<'a, V> FusedIterator for Names<'a, V> {}
