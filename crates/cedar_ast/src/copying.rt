//! Copies of lists, of maps and of what may be there, by calls that copy their items.

ghost use Rattle.std.specs.Prelude.{◌≡◌, IfOk, Ok, Result};
ghost use Rattle.std.specs.Fn.{FnReturnsAt};
ghost use Rattle.std.specs.declared.cmp.Ordering.TheVariants.{Equal};
ghost use Rattle.cedar_ast.specs.Words.{HoldsOfBoth, HoldsPairwise, Memory};

use crate::memory::M;
use std::collections::BTreeMap;
use std::default::Emptied;

/// The copies of some items, in their order. Out of memory is the only refusal.
pub fn copied_items<V: Drop, F: Fn(&V) -> M<V> + Drop>(items: &Vec<V>, copy: F) -> M<Vec<V>>
    requires { F.IsAlwaysCallable copy }
    ensures { IfOk result (λ copies.
        HoldsPairwise (λ item other. FnReturnsAt F.Fn copy item
        (Ok other)) items.now.items copies.items) }
{
    let mut copies = Vec::new(*items.allocator());
    for item in items {
        copies.push(copy(item)?)?;
    }
    Ok(copies)
}

/// The copy of what may be there. Out of memory is the only refusal.
pub fn copied_option<V: Drop, F: Fn(&V) -> M<V> + Drop>(it: &Option<V>, copy: F) -> M<Option<V>>
    requires { F.IsAlwaysCallable copy }
    ensures { IfOk result (HoldsOfBoth (λ item other.
        FnReturnsAt F.Fn copy item (Ok other)) it.now) }
{
    match it {
        None => Ok(None),
        Some(item) => Ok(Some(copy(item)?)),
    }
}

/// The copies of the entries of a map, in their order. The copy of a key has to tie with it. Out of
/// memory is the only refusal.
pub fn copied_entries<K: Ord + Drop, V: Drop, F: Fn(&K) -> M<K> + Drop, G: Fn(&V) -> M<V> + Drop>(
    entries: &BTreeMap<K, V>,
    copy_key: F,
    copy_value: G,
) -> M<BTreeMap<K, V>>
    requires key_callable { F.IsAlwaysCallable copy_key }
    requires value_callable { G.IsAlwaysCallable copy_value }
    requires ties { (key : K) (answer : Result K Memory) → FnReturnsAt F.Fn copy_key key answer
        → IfOk answer (λ other. K.cmp key other ≡ Equal) }
    ensures { IfOk result (λ copies.
        HoldsPairwise (λ entry other. FnReturnsAt F.Fn copy_key entry.0 (Ok other.0)
        × FnReturnsAt G.Fn copy_value entry.1 (Ok other.1)) entries.now.entries copies.entries) }
{
    let mut copies = BTreeMap::emptied(entries)?;
    for (key, value) in entries {
        copies.insert(copy_key(key)?, copy_value(value)?)?;
    }
    Ok(copies)
}
