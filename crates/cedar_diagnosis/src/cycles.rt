//! What declarations link, and what is on a cycle of such links.

ghost use Rattle.std.specs.List.Sorted.{IsStrictlySortedBy};
ghost use Rattle.std.specs.Prelude.{◌≡◌, ℕ, ◌<◌, [], Contains, IfNone, IfOk, IfSome, OnOk, Some, length, map, slice_get, vec_len};
ghost use Rattle.cedar_ast.specs.Words.{Chain};
ghost use Rattle.cedar_diagnosis.specs.Adding.{Adds, SomeGives, TellsJust};
ghost use Rattle.cedar_diagnosis.specs.Lent.{declaration_of, declarations_of};
ghost use Rattle.cedar_diagnosis.specs.Links.{AddsTarget, AreLinkTargets, IsFlagged, IsLinked, LinksIn, link_told};
ghost use Rattle.cedar_graph.specs.Words.{IsTarget};
ghost use Rattle.cedar_schema_ast.specs.Words.{Declaration};
ghost use Rattle.cedar_schema_semantics.specs.Words.{Fault, fault_of};

use crate::finding::{FaultKind, add_key, tell};
use crate::lent::Lent;
use cedar_ast::M;
use cedar_cycles::on_cycles;
use cedar_schema_semantics::SchemaError;
use std::alloc::Global;
use std::collections::BTreeSet;

/// A link from one name to another, each the key of the fault that it would be on a cycle.
#[derive(Drop)]
pub(crate) struct Link<K> {
    /// The name that it leads from.
    pub(crate) from: K,
    /// The name that it leads to.
    pub(crate) to: K,
}

/// A kind of faults that names on cycles are.
///
/// The ghost member says which links there are by a declaration.
pub(crate) trait Links: FaultKind {
    ghost linked: { Self → Declaration → Fault × Fault → Type 0 };

    /// A copy of a key. Out of memory is the only refusal.
    fn copy(key: &Self::Key) -> M<Self::Key>
        ensures { IfOk result (λ copy. Self.fault copy ≡ Self.fault key.now) };

    /// Adds the links that there are by a declaration. Out of memory is the only refusal.
    fn link(&self, alloc: Global, it: &Lent, links: &mut Vec<Link<Self::Key>>) -> M<()>
        ensures { OnOk result (Adds (linked self.now (declaration_of it.now))
            (map (link_told Self.fault) links.old.items)
            (map (link_told Self.fault) links.new.items)) };
}

/// The links that there are by some declarations.
fn links_in<L: Links>(alloc: Global, linker: &L, bag: &[Lent]) -> M<Vec<Link<L::Key>>>
    ensures { IfOk result (λ links. Adds (SomeGives (L.linked linker.now) (declarations_of bag.now))
        [] (map (link_told L.fault) links.items)) }
{
    let mut links = Vec::new(alloc);
    for it in bag {
        linker.link(alloc, it, &mut links)?;
    }
    Ok(links)
}

/// Adds the name that a link leads from.
fn add_source<L: Links>(link: &Link<L::Key>, keys: &mut BTreeSet<L::Key>) -> M<()>
    ensures { OnOk result (Adds (λ fault. (link_told L.fault link.now).0 ≡ fault)
        (map L.fault keys.old.keys) (map L.fault keys.new.keys)) }
{
    add_key::<L>(keys, L::copy(&link.from)?)
}

/// The names that links lead from.
fn sources<L: Links>(alloc: Global, links: &[Link<L::Key>]) -> M<BTreeSet<L::Key>>
    ensures { IfOk result (λ keys. Adds
        (SomeGives (λ link fault. link.0 ≡ fault) (map (link_told L.fault) links.now))
        [] (map L.fault keys.keys)) }
{
    let mut keys = BTreeSet::new(alloc);
    for link in links {
        add_source::<L>(link, &mut keys)?;
    }
    Ok(keys)
}

/// Some keys in their order.
fn in_order<F: FaultKind>(alloc: Global, keys: BTreeSet<F::Key>) -> M<Vec<F::Key>>
    ensures names { IfOk result (λ names. names.items ≡ keys.keys) }
    ensures ordered { IfOk result (λ names. IsStrictlySortedBy F.Key.cmp names.items) }
{
    let mut names = Vec::with_capacity(alloc, keys.len())?;
    for key in keys {
        names.push(key)?;
    }
    Ok(names)
}

/// The number of a key among some in order, or None where it isn't one of them.
fn number_of<F: FaultKind>(names: &[F::Key], key: &F::Key) -> Option<usize>
    requires { IsStrictlySortedBy F.Key.cmp names.now }
    ensures found { IfSome result (λ number.
        slice_get (map F.fault names.now) number ≡ Some (F.fault key.now)) }
    ensures lacking { IfNone result (¬ Contains (map F.fault names.now) (F.fault key.now)) }
{
    match names.binary_search(key) {
        Ok(number) => Some(number),
        Err(_) => None,
    }
}

/// As many lists as are asked for, with nothing in them.
fn empty_lists(alloc: Global, count: usize) -> M<Vec<Vec<usize>>>
    ensures len { IfOk result (λ lists. vec_len lists ≡ count) }
    ensures empty { IfOk result (λ lists. (i j : ℕ) → ¬ IsTarget lists.items i j) }
{
    let mut lists = Vec::with_capacity(alloc, count)?;
    for _place in 0..count {
        lists.push(Vec::new(alloc))?;
    }
    Ok(lists)
}

/// Adds a link to the targets of numbers, if both of its names have numbers.
fn add_target<F: FaultKind>(
    names: &[F::Key],
    link: &Link<F::Key>,
    targets: &mut Vec<Vec<usize>>,
) -> M<()>
    requires ordered { IsStrictlySortedBy F.Key.cmp names.now }
    requires len { vec_len targets.old ≡ length names.now }
    ensures { OnOk result (AddsTarget (map F.fault names.now) (link_told F.fault link.now)
        targets.old.items targets.new.items) }
{
    let Some(from) = number_of::<F>(names, &link.from) else {
        return Ok(());
    };
    let Some(to) = number_of::<F>(names, &link.to) else {
        return Ok(());
    };
    targets[from].push(to)?;
    Ok(())
}

/// For each of some names, in order, the numbers of those that links lead to.
fn targets_of<F: FaultKind>(
    alloc: Global,
    names: &[F::Key],
    links: &[Link<F::Key>],
) -> M<Vec<Vec<usize>>>
    requires { IsStrictlySortedBy F.Key.cmp names.now }
    ensures len { IfOk result (λ targets. vec_len targets ≡ length names.now) }
    ensures targets { IfOk result (λ targets. AreLinkTargets (map F.fault names.now)
        (map (link_told F.fault) links.now) targets.items) }
{
    let mut targets = empty_lists(alloc, names.len())?;
    for link in links {
        add_target::<F>(names, link, &mut targets)?;
    }
    Ok(targets)
}

/// Adds the name that a link leads from, if its flag is set.
fn add_flagged<L: Links>(
    names: &[L::Key],
    flags: &[bool],
    link: &Link<L::Key>,
    keys: &mut BTreeSet<L::Key>,
) -> M<()>
    requires ordered { IsStrictlySortedBy L.Key.cmp names.now }
    requires len { length flags.now ≡ length names.now }
    ensures { OnOk result (Adds (IsFlagged (map L.fault names.now) flags.now
        (link_told L.fault link.now))
        (map L.fault keys.old.keys) (map L.fault keys.new.keys)) }
{
    let Some(number) = number_of::<L>(names, &link.from) else {
        return Ok(());
    };
    if flags[number] {
        return add_source::<L>(link, keys);
    }
    Ok(())
}

/// The names that links lead from whose flags are set.
fn flagged<L: Links>(
    alloc: Global,
    names: &[L::Key],
    flags: &[bool],
    links: &[Link<L::Key>],
) -> M<BTreeSet<L::Key>>
    requires ordered { IsStrictlySortedBy L.Key.cmp names.now }
    requires len { length flags.now ≡ length names.now }
    ensures { IfOk result (λ keys. Adds (SomeGives (IsFlagged (map L.fault names.now) flags.now)
        (map (link_told L.fault) links.now)) [] (map L.fault keys.keys)) }
{
    let mut keys = BTreeSet::new(alloc);
    for link in links {
        add_flagged::<L>(names, flags, link, &mut keys)?;
    }
    Ok(keys)
}

/// The names that chains of links lead back to.
fn keys_on_cycles<L: Links>(alloc: Global, links: &[Link<L::Key>]) -> M<BTreeSet<L::Key>>
    ensures { IfOk result (λ keys. Adds
        (λ fault. Chain (IsLinked (map (link_told L.fault) links.now)) fault fault)
        [] (map L.fault keys.keys)) }
{
    let names = in_order::<L>(alloc, sources::<L>(alloc, links)?)?;
    let targets = targets_of::<L>(alloc, &names, links)?;
    let flags = on_cycles(alloc, &targets)?;
    flagged::<L>(alloc, &names, &flags, links)
}

/// Tells the names that chains of links lead back to, each once.
pub(crate) fn tell_cycles<L: Links>(
    alloc: Global,
    linker: &L,
    bag: &[Lent],
    faults: &mut Vec<SchemaError>,
) -> M<()>
    ensures { OnOk result (TellsJust
        (λ fault. Chain (LinksIn (L.linked linker.now) (declarations_of bag.now)) fault fault)
        (map fault_of faults.old.items) (map fault_of faults.new.items)) }
{
    let links = links_in(alloc, linker, bag)?;
    tell::<L>(alloc, keys_on_cycles::<L>(alloc, &links)?, faults)
}
