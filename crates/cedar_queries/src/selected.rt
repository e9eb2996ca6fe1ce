//! Those entries of a map whose values pass a test, and their keys.

ghost use Rattle.std.specs.Prelude.{◌≡◌, Bool, length};
ghost use Rattle.std.specs.Iterator.{at_most};
ghost use Rattle.std.specs.Map.Iter.{TakesFirst, deref, deref_pair};

use cedar_ast::QuickHash;
use cedar_table::{Iter, Table};
use std::iter::FusedIterator;
use std::marker::Model;

/// A test that values pass or don't.
pub trait Test<V>: Drop {
    ghost holds: { Self → V → Bool };

    /// Whether the value passes.
    fn passes(&self, value: &V) -> bool
        ensures { result ≡ holds self.now value.now };
}

/// The entries that are left of those of a map whose values pass a test, in order.
#[derive(Drop)]
pub struct SelectedEntries<'a, K, V, T: Test<V>> {
    rest: Iter<'a, K, V>,
    test: T,
}

impl<'a, K, V, T: Test<V>> Model for SelectedEntries<'a, K, V, T> {
    ghost use Rattle.std.specs.Prelude.{List};
    ghost use Rattle.cedar_queries.specs.Selected.{entries_where};

    ghost Value = { List (K × V) };

    ghost view = { λ a. entries_where (T.holds a.test) a.rest };
}

impl<'a, K: Ord + QuickHash, V, T: Test<V>> SelectedEntries<'a, K, V, T> {
    ghost use Rattle.cedar_queries.specs.Selected.{entries_where};

    /// All entries of the map whose values pass.
    pub(crate) fn new(map: &'a Table<K, V>, test: T) -> Self
        ensures { result ≡ entries_where (T.holds test) map.now.entries }
    {
        SelectedEntries {
            rest: map.iter(),
            test,
        }
    }
}

impl<'a, K, V, T: Test<V>> Iterator for SelectedEntries<'a, K, V, T> {
    type Item = (&'a K, &'a V);

    ghost next_gives = { TakesFirst deref_pair };

    ghost remaining = { λ s. at_most (length s) };

    fn next(&mut self) -> Option<(&'a K, &'a V)> {
        while let Some((key, value)) = self.rest.next() {
            if self.test.passes(value) {
                return Some((key, value));
            }
        }
        None
    }

    fn size_hint(&self) -> (usize, Option<usize>) {
        (0, Some(self.rest.len()))
    }
}

impl<'a, K, V, T: Test<V>> FusedIterator for SelectedEntries<'a, K, V, T> {}

/// The keys of such entries.
#[derive(Drop)]
pub struct Selected<'a, K, V, T: Test<V>> {
    selected: SelectedEntries<'a, K, V, T>,
}

impl<'a, K, V, T: Test<V>> Model for Selected<'a, K, V, T> {
    ghost use Rattle.std.specs.Prelude.{List, map};

    ghost Value = { List K };

    ghost view = { λ a. map (λ entry. entry.0) a.selected };
}

impl<'a, K: Ord + QuickHash, V, T: Test<V>> Selected<'a, K, V, T> {
    ghost use Rattle.cedar_queries.specs.Selected.{keys_where};

    /// The keys of all entries of the map whose values pass.
    pub(crate) fn new(map: &'a Table<K, V>, test: T) -> Self
        ensures { result ≡ keys_where (T.holds test) map.now.entries }
    {
        Selected {
            selected: SelectedEntries::new(map, test),
        }
    }
}

impl<'a, K, V, T: Test<V>> Iterator for Selected<'a, K, V, T> {
    type Item = &'a K;

    ghost next_gives = { TakesFirst deref };

    ghost remaining = { λ s. at_most (length s) };

    fn next(&mut self) -> Option<&'a K> {
        let (key, _) = self.selected.next()?;
        Some(key)
    }

    fn size_hint(&self) -> (usize, Option<usize>) {
        self.selected.size_hint()
    }
}

impl<'a, K, V, T: Test<V>> FusedIterator for Selected<'a, K, V, T> {}
