//! Values that have one owner, or are shared by several.

ghost use Rattle.std.specs.Prelude.{◌≡◌, ◌↔◌, IfErr, IfOk, IfSome, IsSome, IsTrue, None, Some, false, true};
ghost use Rattle.std.specs.Cmp.{on_equiv, on_per, on_po, on_total};
ghost use Rattle.cedar_ast.specs.MaybeShared.{Kept};

use crate::memory::M;
use std::alloc::Global;
use std::cmp::Ordering;
use std::fmt;
use std::hash::{Hash, Hasher};
use std::marker::Model;
use std::rc::Rc;

/// The form that a value is kept in.
#[derive(Drop)]
enum Form<T> {
    /// A value with one owner.
    Owned(T),
    /// A value that is shared.
    Shared(Rc<T>),
}

/// A value that has one owner, or is shared by several.
///
/// Equality, order, hash and `Debug` are those of the value, whatever the form.
pub struct MaybeShared<T> {
    form: Form<T>,
}

impl<T> Model for MaybeShared<T> {
    ghost use Rattle.cedar_ast.specs.MaybeShared.{Kept, kept};

    ghost Value = { Kept T };

    ghost view = { λ held. kept held.form };
}

// Written out: proofs see one call where a derived drop shows them each form.
impl<T: Drop> Drop for MaybeShared<T> {
    fn drop(self) {
        let MaybeShared { form: _form } = self;
    }
}

impl<T> MaybeShared<T> {
    /// The value, with one owner.
    pub fn new(value: T) -> Self
        ensures value { result.value ≡ value }
        ensures form { result.is_shared ≡ false }
    {
        MaybeShared {
            form: Form::Owned(value),
        }
    }

    /// The value.
    pub fn value(&self) -> &T
        ensures { result.now ≡ self.now.value }
    {
        match &self.form {
            Form::Owned(value) => value,
            Form::Shared(shared) => shared.as_ref(),
        }
    }
}

impl<T: Drop> MaybeShared<T> {
    /// The same value, shared from now on. Out of memory is the only refusal.
    pub fn into_shared(self, alloc: Global) -> M<Self>
        ensures value { IfOk result (λ shared. shared.value ≡ self.value) }
        ensures form { IfOk result (λ shared. shared.is_shared ≡ true) }
    {
        let MaybeShared { form } = self;
        match form {
            Form::Owned(value) => Ok(MaybeShared {
                form: Form::Shared(Rc::new(alloc, value)?),
            }),
            Form::Shared(shared) => Ok(MaybeShared {
                form: Form::Shared(shared),
            }),
        }
    }

    /// The value, where it has one owner.
    pub fn into_owned(self) -> Option<T>
        ensures owned { self.is_shared ≡ false → result ≡ Some self.value }
        ensures shared { self.is_shared ≡ true → result ≡ None }
    {
        let MaybeShared { form } = self;
        match form {
            Form::Owned(value) => Some(value),
            Form::Shared(_) => None,
        }
    }

    /// The value, where this is its only owner, be it shared or not.
    pub fn into_value(self) -> Result<T, Self>
        ensures alone { IfOk result (λ value. value ≡ self.value) }
        ensures among_others { IfErr result (λ kept. kept ≡ self) }
    {
        let MaybeShared { form } = self;
        match form {
            Form::Owned(value) => Ok(value),
            Form::Shared(shared) => match Rc::try_unwrap(shared) {
                Ok(value) => Ok(value),
                Err(shared) => Err(MaybeShared {
                    form: Form::Shared(shared),
                }),
            },
        }
    }

    /// Another owner of a shared value, or None where the value has one owner. Out of memory is the
    /// only refusal.
    pub fn other_owner(&self) -> M<Option<Self>>
        ensures value { IfOk result (λ found.
            IfSome found (λ other. other.value ≡ self.now.value)) }
        ensures form { IfOk result (λ found. IfSome found (λ other. other.is_shared ≡ true)) }
        ensures shared { IfOk result (λ found. IsSome found ↔ IsTrue self.now.is_shared) }
    {
        match &self.form {
            Form::Owned(_) => Ok(None),
            Form::Shared(shared) => Ok(Some(MaybeShared {
                form: Form::Shared(shared.clone()?),
            })),
        }
    }
}

impl<T: PartialEq> PartialEq for MaybeShared<T> {
    ghost eq = { λ a b. T.eq a.value b.value };

    ghost laws = { on_per (λ a. a.value) T.laws };

    fn eq(&self, other: &MaybeShared<T>) -> bool {
        *self.value() == *other.value()
    }
}

impl<T: Eq> Eq for MaybeShared<T> {
    ghost laws = { on_equiv (λ a. a.value) T.Eq.laws };
}

impl<T: PartialOrd> PartialOrd for MaybeShared<T> {
    ghost partial_cmp = { λ a b. T.partial_cmp a.value b.value };

    ghost laws = { on_po (λ a. a.value) T.PartialOrd.laws };

    fn partial_cmp(&self, other: &MaybeShared<T>) -> Option<Ordering> {
        self.value().partial_cmp(other.value())
    }
}

impl<T: Ord> Ord for MaybeShared<T> {
    ghost cmp = { λ a b. T.cmp a.value b.value };

    ghost total = { on_total (λ a. a.value) T.total };

    ghost matches_partial_cmp = { λ a b. T.matches_partial_cmp a.value b.value };

    ghost matches_eq = { λ a b. T.matches_eq a.value b.value };

    fn cmp(&self, other: &MaybeShared<T>) -> Ordering {
        self.value().cmp(other.value())
    }
}

impl<T: Hash> Hash for MaybeShared<T> {
    ghost hash_input = { λ a. T.hash_input a.value };

    ghost respects_eq = { λ a b. T.respects_eq a.value b.value };

    fn hash<H: Hasher>(&self, state: &mut H) {
        self.value().hash(state)
    }
}

impl<T: fmt::Debug> fmt::Debug for MaybeShared<T> {
    ghost debug_output = { λ a. T.debug_output a.value };

    fn fmt<W: fmt::Write>(&self, f: &mut fmt::Formatter<W>) -> fmt::Result {
        fmt::Debug::fmt(self.value(), f)
    }
}
