//! Tables copied, by calls that copy keys and values.

ghost use Rattle.std.specs.Prelude.{◌≡◌, IfOk, Ok, Result};
ghost use Rattle.cedar_table.specs.Words.{Equal, FnReturnsAt, HoldsPairwise, Memory};

use crate::table::Table;
use crate::table_keys::TableKeys;
use cedar_ast::{M, QuickHash};

/// A table of the copies of the entries of a table, in their order. The copy of a key has to tie
/// with it.
pub fn copied_table<
    K: Ord + QuickHash + Drop,
    V: Drop,
    F: Fn(&K) -> M<K> + Drop,
    G: Fn(&V) -> M<V> + Drop,
>(table: &Table<K, V>, copy_key: F, copy_value: G) -> M<Table<K, V>>
    requires key_callable { F.IsAlwaysCallable copy_key }
    requires value_callable { G.IsAlwaysCallable copy_value }
    requires ties { (key : K) (answer : Result K Memory) → FnReturnsAt F.Fn copy_key key answer
        → IfOk answer (λ other. K.cmp key other ≡ Equal) }
    ensures { IfOk result (λ copies.
        HoldsPairwise (λ entry other. FnReturnsAt F.Fn copy_key entry.0 (Ok other.0)
        × FnReturnsAt G.Fn copy_value entry.1 (Ok other.1)) table.now.entries copies.entries) }
{
    let alloc = *table.allocator();
    let mut keys = Vec::with_capacity(alloc, table.len())?;
    let mut values = Vec::with_capacity(alloc, table.len())?;
    for (key, value) in table {
        keys.push(copy_key(key)?)?;
        values.push(copy_value(value)?)?;
    }
    Ok(Table::from_parts(TableKeys::of(alloc, keys)?, values))
}
