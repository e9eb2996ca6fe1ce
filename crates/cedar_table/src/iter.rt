//! The iterators over a table. Each is seen as the list of what it has left.

ghost use Rattle.std.specs.Prelude.{◌≡◌, length};
ghost use Rattle.cedar_table.specs.Words.{TakesFirst, TakesLast, at_most, deref, deref_pair, zip};

use std::iter::FusedIterator;
use std::marker::Model;
use std::slice;

/// The entries that are left, in the order of their keys.
#[derive(Drop)]
pub struct Iter<'a, K, V> {
    keys: slice::Iter<'a, K>,
    values: slice::Iter<'a, V>,
}

impl<'a, K, V> Model for Iter<'a, K, V> {
    ghost use Rattle.std.specs.Prelude.{◌≡◌, List, length};
    ghost use Rattle.cedar_table.specs.Words.{iter_rest, zip};

    ghost Value = { List (K × V) };

    ghost view = { λ a. zip (iter_rest a.keys) (iter_rest a.values) };

    ghost invariant = { λ a. length (iter_rest a.values) ≡ length (iter_rest a.keys) };
}

impl<'a, K, V> Iter<'a, K, V> {
    /// Keys, each with the value at its place.
    pub(crate) fn new(keys: &'a [K], values: &'a [V]) -> Self
        requires { length values.now ≡ length keys.now }
        ensures { result ≡ zip keys.now values.now }
    {
        Iter {
            keys: keys.iter(),
            values: values.iter(),
        }
    }
}

impl<'a, K, V> Iterator for Iter<'a, K, V> {
    type Item = (&'a K, &'a V);

    ghost next_gives = { TakesFirst deref_pair };

    ghost remaining = { λ s. at_most (length s) };

    fn next(&mut self) -> Option<(&'a K, &'a V)> {
        let key = self.keys.next()?;
        let value = self.values.next()?;
        Some((key, value))
    }

    fn size_hint(&self) -> (usize, Option<usize>) {
        let len = self.keys.len();
        (len, Some(len))
    }
}

impl<'a, K, V> FusedIterator for Iter<'a, K, V> {}

impl<'a, K, V> DoubleEndedIterator for Iter<'a, K, V> {
    ghost next_back_gives = { TakesLast deref_pair };

    fn next_back(&mut self) -> Option<(&'a K, &'a V)> {
        let key = self.keys.next_back()?;
        let value = self.values.next_back()?;
        Some((key, value))
    }
}

impl<'a, K, V> ExactSizeIterator for Iter<'a, K, V> {
    fn len(&self) -> usize {
        self.keys.len()
    }
}

/// What is left of a column: of the keys, or of the values, in the order of the keys.
#[derive(Drop)]
pub struct Column<'a, T> {
    rest: slice::Iter<'a, T>,
}

impl<'a, T> Model for Column<'a, T> {
    ghost use Rattle.std.specs.Prelude.{List};
    ghost use Rattle.cedar_table.specs.Words.{iter_rest};

    ghost Value = { List T };

    ghost view = { λ a. iter_rest a.rest };
}

impl<'a, T> Column<'a, T> {
    /// All of these.
    pub(crate) fn new(items: &'a [T]) -> Self
        ensures { result ≡ items.now }
    {
        Column { rest: items.iter() }
    }
}

impl<'a, T> Iterator for Column<'a, T> {
    type Item = &'a T;

    ghost next_gives = { TakesFirst deref };

    ghost remaining = { λ s. at_most (length s) };

    fn next(&mut self) -> Option<&'a T> {
        self.rest.next()
    }

    fn size_hint(&self) -> (usize, Option<usize>) {
        self.rest.size_hint()
    }
}

impl<'a, T> FusedIterator for Column<'a, T> {}

impl<'a, T> DoubleEndedIterator for Column<'a, T> {
    ghost next_back_gives = { TakesLast deref };

    fn next_back(&mut self) -> Option<&'a T> {
        self.rest.next_back()
    }
}

impl<'a, T> ExactSizeIterator for Column<'a, T> {
    fn len(&self) -> usize {
        self.rest.len()
    }
}

/// The keys that are left, in their order.
pub type Keys<'a, K> = Column<'a, K>;

/// The values that are left, in the order of their keys.
pub type Values<'a, V> = Column<'a, V>;
