//! Maps that ascending keys fill.

ghost use Rattle.std.specs.Prelude.{◌≡◌, ◌≤◌, [], List, length, true, MatchResult, OnOk};
ghost use Rattle.std.specs.BTreeMap.{insert_entry};
ghost use Rattle.std.specs.List.{All};
ghost use Rattle.std.specs.declared.cmp.Ordering.TheVariants.{Less};
ghost use Rattle.cedar_json.specs.Words.{IsAscending, all_put};

use crate::fault::Fault;
use cedar_ast::{M, put};
use std::alloc::Global;
use std::cmp::Ordering;
use std::collections::{BTreeMap, VecDeque};
use std::marker::Model;

/// How many pairs wait at most: one more than a node of a map holds.
const MOST_WAITING: usize = 16;

/// A map that is made of pairs, and those of them that still wait.
///
/// A node of a map that is full is split in its middle, so that ascending keys leave each node half
/// full. So every other pair of ascending ones waits until its node was split, and fills it then.
pub(crate) struct MapBuilder<K: Ord, V> {
    map: BTreeMap<K, V>,
    /// The pairs that wait, in ascending order.
    waiting: VecDeque<(K, V)>,
    /// Whether the pair before waited.
    has_waited: bool,
}

impl<K: Ord, V> Model for MapBuilder<K, V> {
    ghost Value = { List (K × V) };

    ghost view = { λ it. all_put K.cmp it.map.entries it.waiting.items };

    ghost invariant = { λ it. IsAscending K.cmp it.waiting.items };
}

// Written out: proofs of what holds a filling then see one call, and nothing of its parts.
impl<K: Ord + Drop, V: Drop> Drop for MapBuilder<K, V> {
    fn drop(self) {
        let MapBuilder {
            map: _map,
            waiting: _waiting,
            has_waited: _,
        } = self;
    }
}

/// Whether a key is greater than those of all pairs that wait.
fn is_behind<K: Ord, V>(waiting: &VecDeque<(K, V)>, key: &K) -> bool
    ensures { result ≡ true → IsAscending K.cmp waiting.now.items
        → All (λ pair. K.cmp pair.0 key.now ≡ Less) waiting.now.items }
{
    match waiting.back() {
        None => true,
        Some(pair) => matches!(pair.0.cmp(key), Ordering::Less),
    }
}

/// Puts the first of the pairs that wait into a map, until at most some are kept.
fn put_all_but<K: Ord + Drop, V: Drop>(
    kept: usize,
    map: &mut BTreeMap<K, V>,
    waiting: &mut VecDeque<(K, V)>,
) -> M<()>
    ensures entries { OnOk result (all_put K.cmp map.new.entries waiting.new.items
        ≡ all_put K.cmp map.old.entries waiting.old.items) }
    ensures kept { OnOk result (length waiting.new.items ≤ kept) }
    ensures ascending { IsAscending K.cmp waiting.old.items
        → IsAscending K.cmp waiting.new.items }
{
    while waiting.len() > kept {
        let Some((key, value)) = waiting.pop_front() else {
            return Ok(());
        };
        put(map, key, value)?;
    }
    Ok(())
}

/// Puts the pairs that wait into a map, unless a key is greater than those of all of them.
fn make_way<K: Ord + Drop, V: Drop>(
    key: &K,
    map: &mut BTreeMap<K, V>,
    waiting: &mut VecDeque<(K, V)>,
) -> M<()>
    ensures entries { OnOk result (all_put K.cmp map.new.entries waiting.new.items
        ≡ all_put K.cmp map.old.entries waiting.old.items) }
    ensures behind { OnOk result (IsAscending K.cmp waiting.old.items
        → All (λ pair. K.cmp pair.0 key.now ≡ Less) waiting.new.items) }
    ensures ascending { IsAscending K.cmp waiting.old.items
        → IsAscending K.cmp waiting.new.items }
{
    if is_behind(waiting, key) {
        return Ok(());
    }
    put_all_but(0, map, waiting)
}

impl<K: Ord + Drop, V: Drop> MapBuilder<K, V> {
    /// An empty map.
    pub(crate) fn new(alloc: Global) -> MapBuilder<K, V>
        ensures { result ≡ [] }
    {
        MapBuilder {
            map: BTreeMap::new(alloc),
            waiting: VecDeque::new(alloc),
            has_waited: false,
        }
    }

    /// Puts a pair, at once or later.
    pub(crate) fn put(&mut self, key: K, value: V) -> M<()>
        ensures { OnOk result (self.new ≡ insert_entry K.cmp self.old key value) }
    {
        make_way(&key, &mut self.map, &mut self.waiting)?;
        self.has_waited = !self.has_waited;
        if !self.has_waited {
            return put(&mut self.map, key, value);
        }
        self.waiting.push_back((key, value))?;
        put_all_but(MOST_WAITING, &mut self.map, &mut self.waiting)
    }

    /// The map of all pairs.
    pub(crate) fn finish(self) -> Result<BTreeMap<K, V>, Fault>
        ensures { MatchResult result
            (λ map. map.entries ≡ self) (λ fault. fault ≡ Fault.Memory) }
    {
        let MapBuilder {
            mut map,
            mut waiting,
            has_waited: _,
        } = self;
        put_all_but(0, &mut map, &mut waiting)?;
        Ok(map)
    }
}
