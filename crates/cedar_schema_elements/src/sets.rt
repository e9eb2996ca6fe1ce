//! Sets of entity types and of uids, collected and copied.

ghost use Rattle.std.specs.Prelude.{◌≡◌, ◌++◌, IsTrue, IfOk, Result, map};
ghost use Rattle.std.specs.List.{list_any};
ghost use Rattle.std.specs.Ordering.{eq_by_cmp};
ghost use Rattle.std.specs.BTreeSet.{IsOrdered, contains as has_key};
ghost use Rattle.cedar_schema_elements.specs.Words.{FnReturnsAt, HoldsOfAll, IsFiniteIterable, Equal, Memory, SameItems, contains, set_names, type_name, uid_of};

use crate::type_set::TypeSet;
use cedar_ast::{EntityType, EntityUID, M};
use std::alloc::Global;
use std::collections::{BTreeSet, HashSet};
use std::default::Emptied;
use std::hash::Hash;

/// The set of some entity types. The entity types have to come to an end.
pub(crate) fn type_set<I: IntoIterator<Item = EntityType>>(alloc: Global, types: I) -> M<TypeSet>
    requires { IsFiniteIterable I.into_iter_gives I.IntoIter.can_next I.IntoIter.remaining types }
    ensures { IfOk result (λ set. HoldsOfAll I.into_iter_gives I.IntoIter.next_gives types
        (λ xs. SameItems (set_names set) (map type_name xs))) }
{
    Ok(TypeSet::of(Vec::from_iter(alloc, types)?))
}

/// The set of some uids. The uids have to come to an end.
pub(crate) fn uid_set<I: IntoIterator<Item = EntityUID>>(
    alloc: Global,
    uids: I,
) -> M<BTreeSet<EntityUID>>
    requires { IsFiniteIterable I.into_iter_gives I.IntoIter.can_next I.IntoIter.remaining uids }
    ensures uids { IfOk result (λ set. HoldsOfAll I.into_iter_gives I.IntoIter.next_gives uids
        (λ xs. SameItems (map uid_of set.keys) (map uid_of xs))) }
    ensures in_order { IfOk result (IsOrdered ⟦<EntityUID as Ord>⟧.cmp) }
{
    Ok(BTreeSet::from_iter(alloc, uids)?)
}

/// The set of copies of the items of a set. Each copy has to equal its item.
pub(crate) fn copied<K: Eq + Hash + Drop, F: Fn(&K) -> M<K> + Drop>(
    items: &HashSet<K>,
    copy: F,
) -> M<HashSet<K>>
    requires callable { F.IsAlwaysCallable copy }
    requires equal { (item : K) (answer : Result K Memory) → FnReturnsAt F.Fn copy item answer
        → IfOk answer (λ other. IsTrue (K.eq other item)) }
    ensures { IfOk result (λ set. (other : K)
        → contains K.eq set other ≡ contains K.eq items.now other) }
{
    let mut set = HashSet::emptied(items)?;
    for item in items {
        set.insert(copy(item)?)?;
    }
    Ok(set)
}

/// The ordered set of copies of the items of one. Each copy has to be as its item in the order.
pub(crate) fn copied_in_order<K: Ord + Drop, F: Fn(&K) -> M<K> + Drop>(
    items: &BTreeSet<K>,
    copy: F,
) -> M<BTreeSet<K>>
    requires callable { F.IsAlwaysCallable copy }
    requires equal { (item : K) (answer : Result K Memory) → FnReturnsAt F.Fn copy item answer
        → IfOk answer (λ other. K.cmp other item ≡ Equal) }
    ensures keys { IfOk result (λ set. (other : K)
        → has_key K.cmp set other ≡ has_key K.cmp items.now other) }
    ensures in_order { IfOk result (IsOrdered K.cmp) }
{
    let mut set = BTreeSet::emptied(items)?;
    for item in items {
        set.insert(copy(item)?)?;
    }
    Ok(set)
}

/// The ordered set of some keys, and of copies of those of another set. Each copy has to be as its
/// key in the order. The set is made at once, so that it takes no more room than it needs.
pub(crate) fn joined<K: Ord + Drop, F: Fn(&K) -> M<K> + Drop>(
    items: &BTreeSet<K>,
    keys: Vec<K>,
    copy: F,
) -> M<BTreeSet<K>>
    requires callable { F.IsAlwaysCallable copy }
    requires equal { (item : K) (answer : Result K Memory) → FnReturnsAt F.Fn copy item answer
        → IfOk answer (λ other. K.cmp other item ≡ Equal) }
    ensures keys { IfOk result (λ set. (other : K) → has_key K.cmp set other
        ≡ list_any (eq_by_cmp K.cmp other) (keys.items ++ items.now.keys)) }
    ensures in_order { IfOk result (IsOrdered K.cmp) }
{
    let alloc = *keys.allocator();
    let mut all = keys;
    for item in items {
        all.push(copy(item)?)?;
    }
    Ok(BTreeSet::from_iter(alloc, all)?)
}
