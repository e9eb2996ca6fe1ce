//! What is declared twice.

ghost use Rattle.std.specs.List.{flat_map};
ghost use Rattle.std.specs.Prelude.{◌≡◌, [], Contains, IfOk, List, OnOk, map};
ghost use Rattle.cedar_ast.specs.Words.{Twice};
ghost use Rattle.cedar_diagnosis.specs.Adding.{Adds, TellsJust, optional};
ghost use Rattle.cedar_diagnosis.specs.Lent.{declaration_of, declarations_of};
ghost use Rattle.cedar_schema_ast.specs.Words.{Declaration};
ghost use Rattle.cedar_schema_semantics.specs.Words.{Fault, fault_of};

use crate::finding::{FaultKind, add_key, tell};
use crate::lent::Lent;
use cedar_ast::M;
use cedar_schema_semantics::SchemaError;
use std::alloc::Global;
use std::collections::BTreeSet;

/// Faults of what is declared twice.
///
/// The ghost member says which fault it would be if what a declaration declares came again.
pub(crate) trait Repeats: FaultKind {
    ghost given: { Declaration → List Fault };

    /// The key of what is declared, or None where nothing of the kind is. Out of memory is the only
    /// refusal.
    fn key(alloc: Global, it: &Lent) -> M<Option<Self::Key>>
        ensures { IfOk result (λ key. optional Self.fault key ≡ given (declaration_of it.now)) };
}

/// Notes a key: as one that stands twice, if it was seen, else as one that is seen.
fn note<R: FaultKind>(
    key: R::Key,
    seen: &mut BTreeSet<R::Key>,
    twice: &mut BTreeSet<R::Key>,
) -> M<()>
    ensures seen { OnOk result (Adds (λ fault. R.fault key ≡ fault)
        (map R.fault seen.old.keys) (map R.fault seen.new.keys)) }
    ensures twice { OnOk result (Adds (λ fault. (R.fault key ≡ fault)
        × Contains (map R.fault seen.old.keys) fault)
        (map R.fault twice.old.keys) (map R.fault twice.new.keys)) }
{
    if seen.contains(&key) {
        return add_key::<R>(twice, key);
    }
    add_key::<R>(seen, key)
}

/// Notes what a declaration declares.
fn note_declared<R: Repeats>(
    alloc: Global,
    it: &Lent,
    seen: &mut BTreeSet<R::Key>,
    twice: &mut BTreeSet<R::Key>,
) -> M<()>
    ensures seen { OnOk result (Adds (Contains (R.given (declaration_of it.now)))
        (map R.fault seen.old.keys) (map R.fault seen.new.keys)) }
    ensures twice { OnOk result (Adds (λ fault.
        Contains (R.given (declaration_of it.now)) fault
        × Contains (map R.fault seen.old.keys) fault)
        (map R.fault twice.old.keys) (map R.fault twice.new.keys)) }
    ensures single { OnOk result ((fault : Fault)
        → ¬ Twice (R.given (declaration_of it.now)) fault) }
{
    match R::key(alloc, it)? {
        Some(key) => note::<R>(key, seen, twice),
        None => Ok(()),
    }
}

/// The keys of what some declarations declare twice.
pub(crate) fn repeated<R: Repeats>(alloc: Global, bag: &[Lent]) -> M<BTreeSet<R::Key>>
    ensures { IfOk result (λ twice. Adds (Twice (flat_map R.given (declarations_of bag.now)))
        [] (map R.fault twice.keys)) }
{
    let mut seen = BTreeSet::new(alloc);
    let mut twice = BTreeSet::new(alloc);
    for it in bag {
        note_declared::<R>(alloc, it, &mut seen, &mut twice)?;
    }
    Ok(twice)
}

/// Tells what some declarations declare twice, each once.
pub(crate) fn tell_repeated<R: Repeats>(
    alloc: Global,
    bag: &[Lent],
    faults: &mut Vec<SchemaError>,
) -> M<()>
    ensures { OnOk result (TellsJust (Twice (flat_map R.given (declarations_of bag.now)))
        (map fault_of faults.old.items) (map fault_of faults.new.items)) }
{
    tell::<R>(alloc, repeated::<R>(alloc, bag)?, faults)
}
