//! Values that have one owner, or are shared by several.

ghost use Rattle.std.specs.Prelude.{◌≡◌, IfErr, IfOk, IfSome};

use cedar_ast::{M, MaybeShared};
use std::alloc::Global;
use std::fmt;
use std::marker::Model;

/// A value that has one owner, or is shared by several, and is seen as the value itself.
pub struct Shared<T> {
    kept: MaybeShared<T>,
}

impl<T> Model for Shared<T> {
    ghost Value = { T };

    ghost view = { λ shared. shared.kept.value };
}

// Written out: proofs see one call where a derived drop shows them its parts.
impl<T: Drop> Drop for Shared<T> {
    fn drop(self) {
        let Shared { kept: _kept } = self;
    }
}

impl<T> Shared<T> {
    /// The value, with one owner.
    pub(crate) fn owned(value: T) -> Self
        ensures { result ≡ value }
    {
        Shared {
            kept: MaybeShared::new(value),
        }
    }

    /// The value.
    pub(crate) fn value(&self) -> &T
        ensures { result.now ≡ self.now }
    {
        self.kept.value()
    }
}

impl<T: Drop> Shared<T> {
    /// The value, for any number of owners. Out of memory is the only refusal.
    pub(crate) fn new(alloc: Global, value: T) -> M<Self>
        ensures { IfOk result (λ shared. shared ≡ value) }
    {
        Ok(Shared {
            kept: MaybeShared::new(value).into_shared(alloc)?,
        })
    }

    /// Another owner of the value, or None where it can have but one. Out of memory is the only
    /// refusal.
    pub(crate) fn other_owner(&self) -> M<Option<Self>>
        ensures { IfOk result (λ found. IfSome found (λ other. other ≡ self.now)) }
    {
        match self.kept.other_owner()? {
            Some(kept) => Ok(Some(Shared { kept })),
            None => Ok(None),
        }
    }

    /// The value, where this is its only owner.
    pub(crate) fn into_value(self) -> Result<T, Self>
        ensures alone { IfOk result (λ value. value ≡ self) }
        ensures among_others { IfErr result (λ shared. shared ≡ self) }
    {
        let Shared { kept } = self;
        match kept.into_value() {
            Ok(value) => Ok(value),
            Err(kept) => Err(Shared { kept }),
        }
    }
}

impl<T: PartialEq> PartialEq for Shared<T> {
    ghost eq = { λ a b. T.eq a b };

    ghost laws = { T.laws };

    fn eq(&self, other: &Shared<T>) -> bool {
        *self.value() == *other.value()
    }
}

impl<T: Eq> Eq for Shared<T> {
    ghost laws = { T.Eq.laws };
}

impl<T: fmt::Debug> fmt::Debug for Shared<T> {
    fn fmt<W: fmt::Write>(&self, f: &mut fmt::Formatter<W>) -> fmt::Result {
        fmt::Debug::fmt(self.value(), f)
    }
}
