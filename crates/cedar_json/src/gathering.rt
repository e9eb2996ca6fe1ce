//! Items and members that are read one after another.

ghost use Rattle.std.specs.Prelude.{◌≡◌, ◌++◌, ◌∷◌, [], Some, MatchResult};
ghost use Rattle.json.specs.Find.{at};
ghost use Rattle.cedar_json.specs.Words.{IsPutUnder, IsSeenFrom, member_at};

use crate::fault::{Fault, Step};
use cedar_ast::put;
use std::alloc::Global;
use std::collections::BTreeMap;

/// Puts what was read of the item at an index behind the others.
pub(crate) fn push_read<T: Drop>(
    all: &mut Vec<T>,
    index: usize,
    read: Result<T, Fault>,
) -> Result<(), Fault>
    ensures { MatchResult read
        (λ it. MatchResult result (λ _. all.new.items ≡ all.old.items ++ it ∷ [])
        (λ fault. fault ≡ Fault.Memory))
        (λ inner. MatchResult result (λ _. ⊥)
        (IsSeenFrom (λ j k. at index j ≡ Some k) inner)) }
{
    match read {
        Ok(it) => Ok(all.push(it)?),
        Err(fault) => Err(fault.behind(Step::Item(index))),
    }
}

/// Puts what was read of the member at an index under its key.
pub(crate) fn put_read<T: Drop>(
    alloc: Global,
    all: &mut BTreeMap<String, T>,
    index: usize,
    key: &str,
    read: Result<T, Fault>,
) -> Result<(), Fault>
    ensures { MatchResult read
        (λ it. MatchResult result
        (λ _. IsPutUnder key.now all.old.entries all.new.entries it)
        (λ fault. fault ≡ Fault.Memory))
        (λ inner. MatchResult result (λ _. ⊥)
        (IsSeenFrom (λ j k. member_at index j ≡ Some (key.now, k)) inner)) }
{
    match read {
        Ok(it) => Ok(put(all, String::from_str(alloc, key)?, it)?),
        Err(fault) => Err(fault.behind(Step::Member(index))),
    }
}
