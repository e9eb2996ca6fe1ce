//! The keys of a table: in order, and hinted.

use crate::hints::Hints;
use crate::search::place_of;
use cedar_ast::{M, QuickHash};
use std::alloc::Global;
use std::marker::Model;

/// The keys of a table, in their order, each once, as they are hinted.
pub struct TableKeys<K: Ord + QuickHash> {
    pub(crate) keys: Vec<K>,
    hints: Hints,
}

impl<K: Ord + QuickHash> Model for TableKeys<K> {
    ghost use Rattle.std.specs.Prelude.{List};
    ghost use Rattle.cedar_table.specs.Words.{AreHinted, IsStrictlySortedBy};

    ghost Value = { List K };

    ghost view = { λ a. a.keys.items };

    ghost invariant = { λ a. IsStrictlySortedBy K.cmp a.keys.items
        × AreHinted K.quick_input a.hints a.keys.items };
}

// Written out: proofs of what holds them then see one call, and nothing of their parts.
impl<K: Ord + QuickHash + Drop> Drop for TableKeys<K> {
    fn drop(self) {
        let TableKeys {
            keys: _keys,
            hints: _hints,
        } = self;
    }
}

impl<K: Ord + QuickHash> TableKeys<K> {
    ghost use Rattle.std.specs.Prelude.{◌≡◌, [], IfNone, IfSome, ℕ};
    ghost use Rattle.cedar_table.specs.Words.{IsStrictlySortedBy, KeyStandsAt};

    /// No keys.
    pub(crate) fn new(alloc: Global) -> Self
        ensures { result ≡ [] }
    {
        TableKeys {
            keys: Vec::new(alloc),
            hints: Hints::new(alloc),
        }
    }

    /// The keys, in their order.
    pub fn as_vec(&self) -> &Vec<K>
        ensures keys { result.now.items ≡ self.now }
        ensures sorted { IsStrictlySortedBy K.cmp self.now }
    {
        &self.keys
    }

    /// The place of a key, if it is there.
    pub(crate) fn place(&self, key: &K) -> Option<usize>
        ensures sorted { IsStrictlySortedBy K.cmp self.now }
        ensures found { IfSome result (KeyStandsAt K.cmp self.now key.now) }
        ensures lacking { IfNone result ((place : ℕ) → ¬ KeyStandsAt K.cmp self.now key.now place) }
    {
        place_of(&self.keys, &self.hints, key)
    }
}

impl<K: Ord + QuickHash + Drop> TableKeys<K> {
    ghost use Rattle.std.specs.Prelude.{◌≡◌, IfOk};
    ghost use Rattle.cedar_table.specs.Words.{IsStrictlySortedBy};

    /// The keys of a list, which are in order. Out of memory is the only refusal.
    pub fn of(alloc: Global, keys: Vec<K>) -> M<Self>
        requires { IsStrictlySortedBy K.cmp keys.items }
        ensures { IfOk result (λ made. made ≡ keys.items) }
    {
        let hints = Hints::of(alloc, &keys)?;
        Ok(TableKeys { keys, hints })
    }
}
