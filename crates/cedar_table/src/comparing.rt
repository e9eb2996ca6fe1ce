//! Equality and `Debug` of tables, which go by the entries alone, as those of maps do.

ghost use Rattle.std.specs.Prelude.{◌&&◌};
ghost use Rattle.cedar_table.specs.Words.{and_equiv, and_per, keys_of, lists_equiv, lists_per, on_equiv, on_per, pointwise, values_of};

use crate::table::Table;
use cedar_ast::QuickHash;
use std::fmt;

impl<K: Ord + QuickHash, V: PartialEq> PartialEq for Table<K, V> {
    ghost eq = { λ m n. pointwise K.eq (keys_of m.entries) (keys_of n.entries)
        && pointwise V.eq (values_of m.entries) (values_of n.entries) };

    ghost laws = { and_per (on_per (λ m. keys_of m.entries) (lists_per K.PartialEq.laws))
        (on_per (λ m. values_of m.entries) (lists_per V.laws)) };

    fn eq(&self, other: &Table<K, V>) -> bool {
        self.keys.keys == other.keys.keys && self.values == other.values
    }
}

impl<K: Ord + QuickHash, V: Eq> Eq for Table<K, V> {
    ghost laws = { and_equiv (on_equiv (λ m. keys_of m.entries) (lists_equiv K.Eq.laws))
        (on_equiv (λ m. values_of m.entries) (lists_equiv V.Eq.laws)) };
}

impl<K: Ord + QuickHash + fmt::Debug, V: fmt::Debug> fmt::Debug for Table<K, V> {
    fn fmt<W: fmt::Write>(&self, f: &mut fmt::Formatter<W>) -> fmt::Result {
        let mut out = f.debug_map();
        for (key, value) in self {
            out.entry(key, value);
        }
        out.finish()
    }
}
