//! The edges of the nodes of a table, by the places of their targets.

ghost use Rattle.std.specs.Prelude.{◌≡◌, ℕ, IfErr, IfOk, IfSome, IsTrue, length, slice_get, vec_len};
ghost use Rattle.std.specs.Map.{keys_of, values_of};
ghost use Rattle.cedar_graph.specs.Words.{AreNumbersOf, HasEntry, IsLack, IsNumbered, StepsTo, items_at};

use crate::table_fault::TableFault;
use crate::tc_node::TCNode;
use cedar_ast::QuickHash;
use cedar_table::Table;
use std::alloc::Global;
use std::hash::Hash;

/// The place of a key, which has to be there.
pub(crate) fn place_of<K: Ord + Hash + QuickHash, V: TCNode<K>>(
    nodes: &Table<K, V>,
    key: &K,
) -> Result<usize, TableFault<K>>
    ensures place { IfOk result (IsNumbered K.eq (keys_of nodes.now.entries) key.now) }
    ensures fault { IfErr result (IsLack (HasEntry K.eq nodes.now.entries)
        (λ other. IsTrue (K.eq key.now other))) }
{
    match nodes.place(key) {
        Some(place) => Ok(place),
        None => Err(TableFault::Lacks(V::copy_key(key)?)),
    }
}

/// The places of the keys that a node has an edge to, which have to be there.
fn places_of<K: Ord + Hash + QuickHash + Drop, V: TCNode<K>>(
    alloc: Global,
    nodes: &Table<K, V>,
    node: &V,
) -> Result<Vec<usize>, TableFault<K>>
    ensures places { IfOk result (λ places. AreNumbersOf K.eq (keys_of nodes.now.entries)
        (V.has_edge node.now) places.items) }
    ensures fault { IfErr result (IsLack (HasEntry K.eq nodes.now.entries)
        (λ key. IsTrue (V.has_edge node.now key))) }
{
    let mut places = Vec::new(alloc);
    for key in node.out_edges() {
        places.push(place_of(nodes, key)?)?;
    }
    Ok(places)
}

/// The places of the keys that each node has an edge to, in the order of the table. All of them
/// have to be there.
pub(crate) fn all_places<K: Ord + Hash + QuickHash + Drop, V: TCNode<K>>(
    alloc: Global,
    nodes: &Table<K, V>,
) -> Result<Vec<Vec<usize>>, TableFault<K>>
    ensures len { IfOk result (λ targets. vec_len targets ≡ length nodes.now.entries) }
    ensures places { IfOk result (λ targets. (i : ℕ)
        → IfSome (slice_get (values_of nodes.now.entries) i)
        (λ node. AreNumbersOf K.eq (keys_of nodes.now.entries) (V.has_edge node)
        (items_at targets.items i))) }
    ensures fault { IfErr result (IsLack (HasEntry K.eq nodes.now.entries)
        (λ key. (from : K) × StepsTo K.eq V.has_edge nodes.now.entries from key)) }
{
    let mut targets = Vec::with_capacity(alloc, nodes.len())?;
    for node in nodes.values() {
        targets.push(places_of(alloc, nodes, node)?)?;
    }
    Ok(targets)
}
