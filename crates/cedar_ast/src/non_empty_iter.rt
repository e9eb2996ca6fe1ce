//! The iterator over a list that isn't empty. It is seen as the list of what it has left.

ghost use Rattle.std.specs.Iterator.{at_most};
ghost use Rattle.std.specs.Map.Iter.{TakesFirst, deref};
ghost use Rattle.std.specs.Prelude.{◌≡◌, ◌∷◌, length};

use std::iter::FusedIterator;
use std::marker::Model;
use std::slice;

/// The items of a list that isn't empty that are left, in order.
#[derive(Drop)]
pub struct Iter<'a, T> {
    head: Option<&'a T>,
    tail: slice::Iter<'a, T>,
}

impl<'a, T> Model for Iter<'a, T> {
    ghost use Rattle.std.specs.List.{cons_option};
    ghost use Rattle.std.specs.Map.Iter.{deref};
    ghost use Rattle.std.specs.Option.{option_map};
    ghost use Rattle.std.specs.Prelude.{List};
    ghost use Rattle.std.specs.Slice.Iter.{iter_rest};

    ghost Value = { List T };

    ghost view = { λ it. cons_option (option_map deref it.head) (iter_rest it.tail) };
}

impl<'a, T> Iter<'a, T> {
    /// A first item, and others behind it.
    pub(crate) fn new(head: &'a T, tail: &'a [T]) -> Self
        ensures { result ≡ head.now ∷ tail.now }
    {
        Iter {
            head: Some(head),
            tail: tail.iter(),
        }
    }
}

impl<'a, T> Iterator for Iter<'a, T> {
    type Item = &'a T;

    ghost next_gives = { TakesFirst deref };

    ghost remaining = { λ s. at_most (length s) };

    fn next(&mut self) -> Option<&'a T> {
        match self.head.take() {
            Some(item) => Some(item),
            None => self.tail.next(),
        }
    }
}

impl<'a, T> FusedIterator for Iter<'a, T> {}
