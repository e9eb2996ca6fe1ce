//! Faults that are looked for, declaration by declaration.

ghost use Rattle.std.specs.Prelude.{◌≡◌, ◌↔◌, ◌++◌, [], IfOk, OnOk, map};
ghost use Rattle.std.specs.declared.cmp.Ordering.TheVariants.{Equal};
ghost use Rattle.cedar_ast.specs.Words.{Twice};
ghost use Rattle.cedar_diagnosis.specs.Adding.{Adds, SomeGives, TellsJust};
ghost use Rattle.cedar_diagnosis.specs.Lent.{declaration_of, declarations_of};
ghost use Rattle.cedar_schema_ast.specs.Words.{Declaration};
ghost use Rattle.cedar_schema_semantics.specs.Words.{Fault, fault_of};

use crate::lent::Lent;
use cedar_ast::M;
use cedar_schema_semantics::SchemaError;
use std::alloc::Global;
use std::collections::BTreeSet;

/// A kind of faults, each of which is known by a key.
///
/// The ghost members say which fault is known by a key, and that keys tie exactly where they are
/// those of the same fault.
pub(crate) trait FaultKind {
    type Key: Ord + Drop;

    ghost fault: { Self.Key → Fault };

    /// The fault that is known by a key. Out of memory is the only refusal.
    fn error(alloc: Global, key: Self::Key) -> M<SchemaError>
        ensures { IfOk result (λ error. fault_of error ≡ fault key) };

    ghost ties: { (a b : Self.Key) → (Self.Key.cmp a b ≡ Equal) ↔ (fault a ≡ fault b) };
}

/// What finds the faults of some kind in a declaration.
///
/// The ghost member says which these are.
pub(crate) trait Finds: FaultKind {
    ghost finds: { Self → Declaration → Fault → Type 0 };

    /// Adds the keys of those that it finds in a declaration. Out of memory is the only refusal.
    fn find(&self, alloc: Global, it: &Lent, keys: &mut BTreeSet<Self::Key>) -> M<()>
        ensures { OnOk result (Adds (finds self.now (declaration_of it.now))
            (map Self.fault keys.old.keys) (map Self.fault keys.new.keys)) };
}

/// Adds a key.
pub(crate) fn add_key<F: FaultKind>(keys: &mut BTreeSet<F::Key>, key: F::Key) -> M<()>
    ensures { OnOk result (Adds (λ fault. F.fault key ≡ fault)
        (map F.fault keys.old.keys) (map F.fault keys.new.keys)) }
{
    let _is_new = keys.insert(key)?;
    Ok(())
}

/// The keys of all that is found in some declarations.
pub(crate) fn found_in<F: Finds>(alloc: Global, finder: &F, bag: &[Lent]) -> M<BTreeSet<F::Key>>
    ensures { IfOk result (λ keys. Adds (SomeGives (F.finds finder.now) (declarations_of bag.now))
        [] (map F.fault keys.keys)) }
{
    let mut keys = BTreeSet::new(alloc);
    for it in bag {
        finder.find(alloc, it, &mut keys)?;
    }
    Ok(keys)
}

/// Tells the faults of some keys, each once.
pub(crate) fn tell<F: FaultKind>(
    alloc: Global,
    keys: BTreeSet<F::Key>,
    faults: &mut Vec<SchemaError>,
) -> M<()>
    ensures told { OnOk result (map fault_of faults.new.items
        ≡ map fault_of faults.old.items ++ map F.fault keys.keys) }
    ensures once { OnOk result ((fault : Fault) → ¬ Twice (map F.fault keys.keys) fault) }
{
    faults.reserve(keys.len())?;
    for key in keys {
        faults.push(F::error(alloc, key)?)?;
    }
    Ok(())
}

/// Tells all that is found in some declarations, each once.
pub(crate) fn tell_found<F: Finds>(
    alloc: Global,
    finder: &F,
    bag: &[Lent],
    faults: &mut Vec<SchemaError>,
) -> M<()>
    ensures { OnOk result (TellsJust (SomeGives (F.finds finder.now) (declarations_of bag.now))
        (map fault_of faults.old.items) (map fault_of faults.new.items)) }
{
    tell::<F>(alloc, found_in(alloc, finder, bag)?, faults)
}
