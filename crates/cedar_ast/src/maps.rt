//! A value put under a key of a map.

ghost use Rattle.std.specs.Prelude.{◌≡◌, OnOk};
ghost use Rattle.std.specs.BTreeMap.{insert_entry};

use crate::memory::M;
use std::collections::BTreeMap;

/// Puts a value under a key. Out of memory is the only refusal.
pub fn put<K: Ord + Drop, V: Drop>(map: &mut BTreeMap<K, V>, key: K, value: V) -> M<()>
    ensures { OnOk result (map.new.entries ≡ insert_entry K.cmp map.old.entries key value) }
{
    let _old = map.insert(key, value)?;
    Ok(())
}
