//! Tables, and how they are made of maps and read.

use crate::iter::{Iter, Keys, Values};
use crate::table_keys::TableKeys;
use cedar_ast::{M, QuickHash};
use std::alloc::Global;
use std::collections::BTreeMap;
use std::marker::Model;

/// Values by key, which don't change: entries in the order of their keys, each key once.
///
/// Keys and values stand in a column each, so that a look-up goes over keys alone. It costs a hash.
/// Only where some key has no hint, since too many hash alike, a key to which no hint leads is
/// looked for by halving the keys.
pub struct Table<K: Ord + QuickHash, V> {
    pub(crate) keys: TableKeys<K>,
    /// The value of the key at the same place.
    pub(crate) values: Vec<V>,
}

impl<K: Ord + QuickHash, V> Model for Table<K, V> {
    ghost use Rattle.std.specs.Prelude.{◌≡◌, length};
    ghost use Rattle.cedar_table.specs.Words.{Entries, zip};

    ghost Value = { Entries K V };

    ghost view = { λ a. record { entries = zip a.keys a.values.items } };

    ghost invariant = { λ a. length a.values.items ≡ length a.keys };
}

// Written out: proofs of what holds a table then see one call, and nothing of its parts.
impl<K: Ord + QuickHash + Drop, V: Drop> Drop for Table<K, V> {
    fn drop(self) {
        let Table {
            keys: _keys,
            values: _values,
        } = self;
    }
}

impl<K: Ord + QuickHash, V> Table<K, V> {
    ghost use Rattle.std.specs.Prelude.{◌≡◌, []};
    ghost use Rattle.cedar_table.specs.Words.{IsStrictlySortedBy, keys_of, values_of};

    /// The table without entries.
    pub fn new(alloc: Global) -> Self
        ensures empty { result.entries ≡ [] }
        ensures ordered { IsStrictlySortedBy K.cmp (keys_of result.entries) }
    {
        Table {
            keys: TableKeys::new(alloc),
            values: Vec::new(alloc),
        }
    }

    /// That the keys are in order, each once, for a proof of what holds the table. Nothing is done.
    pub fn keys_ascend(&self)
        ensures { IsStrictlySortedBy K.cmp (keys_of self.now.entries) }
    {
        let _ = self.keys.as_vec();
    }

    /// The allocator of the entries.
    pub(crate) fn allocator(&self) -> &Global {
        self.values.allocator()
    }

    /// The entries, in the order of their keys.
    pub fn iter(&self) -> Iter<'_, K, V>
        ensures rest { result ≡ self.now.entries }
        ensures ordered { IsStrictlySortedBy K.cmp (keys_of self.now.entries) }
    {
        Iter::new(self.keys.as_vec(), &self.values)
    }

    /// The keys, in order.
    pub fn keys(&self) -> Keys<'_, K>
        ensures rest { result ≡ keys_of self.now.entries }
        ensures ordered { IsStrictlySortedBy K.cmp (keys_of self.now.entries) }
    {
        Keys::new(self.keys.as_vec())
    }

    /// The values, in the order of their keys.
    pub fn values(&self) -> Values<'_, V>
        ensures rest { result ≡ values_of self.now.entries }
        ensures ordered { IsStrictlySortedBy K.cmp (keys_of self.now.entries) }
    {
        let _ = self.keys.as_vec();
        Values::new(&self.values)
    }
}

impl<K: Ord + QuickHash + Drop, V: Drop> Table<K, V> {
    ghost use Rattle.std.specs.Prelude.{◌≡◌, IfOk, length};
    ghost use Rattle.cedar_table.specs.Words.{IsStrictlySortedBy, keys_of, values_of, zip};

    /// The entries of a map. Out of memory is the only refusal.
    pub fn from_map(alloc: Global, map: BTreeMap<K, V>) -> M<Self>
        ensures { IfOk result (λ table. table.entries ≡ map.entries) }
    {
        let mut keys = Vec::with_capacity(alloc, map.len())?;
        let mut values = Vec::with_capacity(alloc, map.len())?;
        for (key, value) in map {
            keys.push(key)?;
            values.push(value)?;
        }
        Ok(Table::from_parts(TableKeys::of(alloc, keys)?, values))
    }

    /// The keys, as they are hinted, and the values at their places.
    pub fn into_parts(self) -> (TableKeys<K>, Vec<V>)
        ensures sorted { IsStrictlySortedBy K.cmp (keys_of self.entries) }
        ensures keys { result.0 ≡ keys_of self.entries }
        ensures values { result.1.items ≡ values_of self.entries }
    {
        let Table { keys, values } = self;
        let _ = keys.as_vec();
        (keys, values)
    }

    /// The table of keys and the values at their places, as many of these.
    pub fn from_parts(keys: TableKeys<K>, values: Vec<V>) -> Self
        requires { length values.items ≡ length keys }
        ensures { result.entries ≡ zip keys values.items }
    {
        Table { keys, values }
    }
}

impl<K: Ord + QuickHash, V> Table<K, V> {
    ghost use Rattle.std.specs.Prelude.{◌≡◌, ◌<◌, IfNone, IfSome, None, is_some, length};
    ghost use Rattle.cedar_table.specs.Words.{StandsAt, get_by, option_copied};

    /// How many entries there are.
    pub fn len(&self) -> usize
        ensures { result ≡ length self.now.entries }
    {
        self.values.len()
    }

    /// The place of a key in the order of the keys, if it is there.
    pub fn place(&self, key: &K) -> Option<usize>
        ensures found { IfSome result (StandsAt K.cmp self.now.entries key.now) }
        ensures lacking { IfNone result (get_by (K.cmp key.now) self.now ≡ None) }
    {
        self.keys.place(key)
    }

    /// The value of a key, if there is one.
    pub fn get(&self, key: &K) -> Option<&V>
        ensures value { option_copied result ≡ get_by (K.cmp key.now) self.now }
    {
        let place = self.keys.place(key)?;
        Some(&self.values[place])
    }

    /// Whether the key is there.
    pub fn contains_key(&self, key: &K) -> bool
        ensures { result ≡ is_some (get_by (K.cmp key.now) self.now) }
    {
        self.get(key).is_some()
    }
}

impl<'a, K: Ord + QuickHash, V> IntoIterator for &'a Table<K, V> {
    ghost use Rattle.std.specs.Prelude.{◌≡◌};
    ghost use Rattle.cedar_table.specs.Words.{IsStrictlySortedBy, keys_of};

    type Item = (&'a K, &'a V);

    type IntoIter = Iter<'a, K, V>;

    ghost into_iter_gives = { λ table rest. (rest ≡ table.now.entries)
        × IsStrictlySortedBy K.cmp (keys_of table.now.entries) };

    fn into_iter(self) -> Iter<'a, K, V> {
        self.iter()
    }
}
