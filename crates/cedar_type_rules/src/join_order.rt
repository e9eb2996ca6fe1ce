//! What is ordered in each mode and can be joined, with the laws of joins.

ghost use Rattle.std.specs.Prelude.{Err, IsTrue, Ok, Result, ◌↔◌, ◌∷◌};
ghost use Rattle.cedar_type_rules.specs.Words.{AllByRecursion, IsFoldOfJoins, IsGivenOrMemory, IsLeastClean, LubHelp, ValidationMode};

use crate::join_error::JoinError;
use cedar_ast::ValidationMode;
use std::alloc::Global;

/// What is ordered in each mode, and can be joined.
///
/// The ghost members are what contracts speak of: when one value is below another, what a join
/// answers, which values are clean, and when two are alike.
pub trait JoinOrder {
    ghost below: { ValidationMode → Self → Self → Type 0 };

    ghost join: { ValidationMode → Self → Self → Result Self LubHelp → Type 0 };

    ghost is_clean: { Self → Type 0 };

    ghost is_alike: { Self → Self → Type 0 };

    /// Whether the value is below another in a mode.
    fn below(&self, other: &Self, mode: ValidationMode) -> bool
        ensures { IsTrue result ↔ below mode self.now other.now };

    /// The join of two values in a mode, or a help where they have none, or out of memory.
    fn join(&self, alloc: Global, other: &Self, mode: ValidationMode) -> Result<Self, JoinError>
    where
        Self: Sized,
        ensures { IsGivenOrMemory (join mode self.now other.now) result };

    /// Whether the value is clean: joins of clean values are their least clean bounds.
    fn is_clean(&self) -> bool
        ensures { IsTrue result ↔ is_clean self.now };

    ghost alike_are_below: { (mode : ValidationMode) (a b : Self) → is_alike a b → below mode a b };

    ghost below_itself: { (mode : ValidationMode) (a : Self) → below mode a a };

    ghost below_onwards: { (mode : ValidationMode) (a b c : Self) → below mode a b → below mode b c
        → below mode a c };

    ghost below_both_ways: { (mode : ValidationMode) (a b : Self) → below mode a b → below mode b a
        → is_alike a b };

    ghost join_is_above: { (mode : ValidationMode) (a b given : Self) → join mode a b (Ok given)
        → below mode a given × below mode b given };

    ghost join_is_least: { (mode : ValidationMode) (a b given bound : Self)
        → join mode a b (Ok given)
        → below mode a bound → below mode b bound → is_clean bound → below mode given bound };

    ghost join_is_clean: { (mode : ValidationMode) (a b given : Self) → join mode a b (Ok given)
        → is_clean a → is_clean b → is_clean given };

    ghost refused_has_none: { (mode : ValidationMode) (a b bound : Self) (help : LubHelp)
        → join mode a b (Err help)
        → below mode a bound → below mode b bound → ¬ is_clean bound };
}

/// The fold of the join over some values, from a start on; or the help of the first join that is
/// refused, or out of memory.
///
/// Of clean values that is their least clean bound, and it is refused only where they have none.
pub fn reduce<T: JoinOrder + Drop>(
    alloc: Global,
    start: T,
    items: &[T],
    mode: ValidationMode,
) -> Result<T, JoinError>
    ensures pairwise { IsGivenOrMemory (IsFoldOfJoins (T.join mode) start items.now) result }
    ensures of_clean { T.is_clean start → AllByRecursion T.is_clean items.now
        → IsGivenOrMemory (IsLeastClean (T.below mode) T.is_clean (start ∷ items.now)) result }
{
    let mut join = start;
    for item in items {
        join = join.join(alloc, item, mode)?;
    }
    Ok(join)
}
