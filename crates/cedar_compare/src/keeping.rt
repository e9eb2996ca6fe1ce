//! Uids kept by key.

ghost use Rattle.std.specs.Prelude.{◌≡◌, OnOk, Some, cond};
ghost use Rattle.std.specs.BTreeMap.{get, is_at};

use cedar_ast::{EntityUID, M};
use std::collections::BTreeMap;

/// Keeps a uid under a key.
pub(crate) fn keep<K: Ord + Drop>(
    kept: &mut BTreeMap<K, EntityUID>,
    key: K,
    uid: EntityUID,
) -> M<()>
    ensures { OnOk result ((other : K) → get K.cmp kept.new other
        ≡ cond (is_at (K.cmp key) other) (Some uid) (get K.cmp kept.old other)) }
{
    let _old = kept.insert(key, uid)?;
    Ok(())
}
