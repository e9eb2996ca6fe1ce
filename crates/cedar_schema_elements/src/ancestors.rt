//! What stands above the nodes of a hierarchy: descendants, inverted.

ghost use Rattle.std.specs.Prelude.{◌≡◌, ◌⊎◌, ◌↔◌, Contains, IfOk, OnOk};
ghost use Rattle.cedar_schema_elements.specs.Ancestors.{IsAncestor, ListsBelow};

use crate::schema_node::SchemaNode;
use cedar_ast::{M, QuickHash};
use cedar_table::Table;
use std::alloc::Global;
use std::collections::{BTreeMap, BTreeSet};
use std::hash::Hash;

/// The keys of the nodes above each node, under its key.
pub type Ancestors<K> = BTreeMap<K, BTreeSet<K>>;

/// Puts a node above another.
fn add_upper<K: Ord + Hash + Drop, V: SchemaNode<K>>(
    alloc: Global,
    ancestors: &mut Ancestors<K>,
    lower: &K,
    upper: &K,
) -> M<()>
    ensures { OnOk result ((key : K) (above : V.Name)
        → IsAncestor K.cmp V.key_name ancestors.new key above
        ↔ (IsAncestor K.cmp V.key_name ancestors.old key above
        ⊎ ((V.key_name lower.now ≡ V.key_name key) × (V.key_name upper.now ≡ above)))) }
{
    let upper = V::copy_name(upper)?;
    match ancestors.get_mut(lower) {
        Some(set) => {
            set.insert(upper)?;
        }
        None => {
            let mut set = BTreeSet::new(alloc);
            set.insert(upper)?;
            ancestors.insert(V::copy_name(lower)?, set)?;
        }
    }
    Ok(())
}

/// Puts a node above each of its descendants.
fn add_ancestors<K: Ord + Hash + Drop, V: SchemaNode<K>>(
    alloc: Global,
    ancestors: &mut Ancestors<K>,
    upper: &K,
    node: &V,
) -> M<()>
    ensures { OnOk result ((key : K) (above : V.Name)
        → IsAncestor K.cmp V.key_name ancestors.new key above
        ↔ (IsAncestor K.cmp V.key_name ancestors.old key above
        ⊎ ((V.key_name upper.now ≡ above) × Contains (V.below node.now) (V.key_name key)))) }
{
    for lower in node.descendants() {
        add_upper::<K, V>(alloc, ancestors, lower, upper)?;
    }
    Ok(())
}

/// The keys of the nodes above each node: of those that list it among their descendants. Out of
/// memory is the only refusal.
pub fn upper_sets<K: Ord + Hash + QuickHash + Drop, V: SchemaNode<K>>(
    alloc: Global,
    nodes: &Table<K, V>,
) -> M<Ancestors<K>>
    ensures { IfOk result (λ ancestors.
        (key : K) (above : V.Name) → IsAncestor K.cmp V.key_name ancestors key above
        ↔ ListsBelow V.key_name V.below nodes.now.entries (V.key_name key) above) }
{
    let mut ancestors = BTreeMap::new(alloc);
    for (upper, node) in nodes {
        add_ancestors(alloc, &mut ancestors, upper, node)?;
    }
    Ok(ancestors)
}
