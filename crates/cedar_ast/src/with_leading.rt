//! Values that are held with the number of their leading bytes, by which most are told apart.

ghost use Rattle.std.specs.Prelude.{◌≡◌, ◌↔◌, ℕ, IfOk, IfSome, IsSome, IsTrue, false, true};
ghost use Rattle.std.specs.Cmp.{on_equiv, on_per, on_po, on_total};
ghost use Rattle.cedar_ast.specs.MaybeShared.{Kept};

use crate::maybe_shared::MaybeShared;
use crate::memory::M;
use std::alloc::Global;
use std::cmp::Ordering;
use std::fmt;
use std::hash::{Hash, Hasher};
use std::marker::Model;

/// A value that orders first by a text, of which the leading bytes make a number.
pub(crate) trait Leading: Ord {
    ghost leading_of: { Self → ℕ };

    /// The number of the leading bytes.
    fn leading(&self) -> u64
        ensures { result ≡ leading_of self.now };

    /// The order of two values with these numbers, or None where the numbers don't tell it.
    fn order_by_leading(leading: u64, other: u64) -> Option<Ordering>
        ensures { IfSome result (λ order. (a b : Self) → leading_of a ≡ leading
            → leading_of b ≡ other → Self.cmp a b ≡ order) };
}

/// A value that has one owner, or is shared by several, with the number of its leading bytes: two
/// values with unlike numbers are compared without a look at them.
pub(crate) struct WithLeading<T: Leading> {
    leading: u64,
    held: MaybeShared<T>,
    ghost leads: { leading ≡ T.leading_of held.value },
}

impl<T: Leading> Model for WithLeading<T> {
    ghost use Rattle.cedar_ast.specs.MaybeShared.{Kept};

    ghost Value = { Kept T };

    ghost view = { λ it. it.held };
}

// Written out: proofs see one call where a derived drop shows them each form.
impl<T: Leading + Drop> Drop for WithLeading<T> {
    fn drop(self) {
        let WithLeading {
            leading: _,
            held: _held,
        } = self;
    }
}

impl<T: Leading> WithLeading<T> {
    /// The value, with one owner.
    pub(crate) fn new(value: T) -> Self
        ensures value { result.value ≡ value }
        ensures form { result.is_shared ≡ false }
    {
        WithLeading {
            leading: value.leading(),
            held: MaybeShared::new(value),
        }
    }

    /// The value.
    pub(crate) fn value(&self) -> &T
        ensures { result.now ≡ self.now.value }
    {
        self.held.value()
    }

    /// The number of the value's leading bytes.
    pub(crate) fn leading(&self) -> u64
        ensures { result ≡ T.leading_of self.now.value }
    {
        self.leading
    }
}

impl<T: Leading + Drop> WithLeading<T> {
    /// The same value, shared from now on. Out of memory is the only refusal.
    pub(crate) fn into_shared(self, alloc: Global) -> M<Self>
        ensures value { IfOk result (λ shared. shared.value ≡ self.value) }
        ensures form { IfOk result (λ shared. shared.is_shared ≡ true) }
    {
        let WithLeading { leading, held } = self;
        Ok(WithLeading {
            leading,
            held: held.into_shared(alloc)?,
        })
    }

    /// Another owner of a shared value, or None where the value has one owner. Out of memory is the
    /// only refusal.
    pub(crate) fn other_owner(&self) -> M<Option<Self>>
        ensures value { IfOk result (λ found.
            IfSome found (λ other. other.value ≡ self.now.value)) }
        ensures form { IfOk result (λ found. IfSome found (λ other. other.is_shared ≡ true)) }
        ensures shared { IfOk result (λ found. IsSome found ↔ IsTrue self.now.is_shared) }
    {
        match self.held.other_owner()? {
            None => Ok(None),
            Some(held) => Ok(Some(WithLeading {
                leading: self.leading,
                held,
            })),
        }
    }
}

impl<T: Leading> PartialEq for WithLeading<T> {
    ghost eq = { λ a b. T.eq a.value b.value };

    ghost laws = { on_per (λ a. a.value) T.PartialEq.laws };

    fn eq(&self, other: &WithLeading<T>) -> bool {
        match T::order_by_leading(self.leading, other.leading) {
            Some(order) => order.is_eq(),
            None => *self.value() == *other.value(),
        }
    }
}

impl<T: Leading> Eq for WithLeading<T> {
    ghost laws = { on_equiv (λ a. a.value) T.Eq.laws };
}

impl<T: Leading> PartialOrd for WithLeading<T> {
    ghost partial_cmp = { λ a b. T.partial_cmp a.value b.value };

    ghost laws = { on_po (λ a. a.value) T.PartialOrd.laws };

    fn partial_cmp(&self, other: &WithLeading<T>) -> Option<Ordering> {
        self.value().partial_cmp(other.value())
    }
}

impl<T: Leading> Ord for WithLeading<T> {
    ghost cmp = { λ a b. T.cmp a.value b.value };

    ghost total = { on_total (λ a. a.value) T.total };

    ghost matches_partial_cmp = { λ a b. T.matches_partial_cmp a.value b.value };

    ghost matches_eq = { λ a b. T.matches_eq a.value b.value };

    fn cmp(&self, other: &WithLeading<T>) -> Ordering {
        match T::order_by_leading(self.leading, other.leading) {
            Some(order) => order,
            None => self.value().cmp(other.value()),
        }
    }
}

impl<T: Leading + Hash> Hash for WithLeading<T> {
    ghost hash_input = { λ a. T.hash_input a.value };

    ghost respects_eq = { λ a b. T.respects_eq a.value b.value };

    fn hash<H: Hasher>(&self, state: &mut H) {
        self.value().hash(state)
    }
}

impl<T: Leading + fmt::Debug> fmt::Debug for WithLeading<T> {
    ghost debug_output = { λ a. T.debug_output a.value };

    fn fmt<W: fmt::Write>(&self, f: &mut fmt::Formatter<W>) -> fmt::Result {
        fmt::Debug::fmt(self.value(), f)
    }
}
