//! The edges of a list, closed over their chains, as edges of the nodes of a table.

ghost use Rattle.std.specs.Prelude.{◌≡◌, ◌⊎◌, ℕ, ◌<◌, IfErr, IfOk, IsTrue, OnOk, length, vec_len};
ghost use Rattle.std.specs.Map.{keys_of};
ghost use Rattle.cedar_graph.specs.Words.{AreTargetsOf, Chain, HasEntry, HoldsPairwise, IsEdgeIn, IsEndIn, IsFaultOf, IsLack, IsLinkedTo, IsTarget};

use crate::places::place_of;
use crate::table_closing::closed_table;
use crate::table_fault::TableFault;
use crate::tc_node::TCNode;
use cedar_ast::{M, QuickHash};
use cedar_table::Table;
use std::alloc::Global;
use std::hash::Hash;

/// As many lists as are asked for, with nothing in them.
fn empty_lists(alloc: Global, count: usize) -> M<Vec<Vec<usize>>>
    ensures len { IfOk result (λ lists. vec_len lists ≡ count) }
    ensures empty { IfOk result (λ lists. (i j : ℕ) → ¬ IsTarget lists.items i j) }
{
    let mut lists = Vec::with_capacity(alloc, count)?;
    for _place in 0..count {
        lists.push(Vec::new(alloc))?;
    }
    Ok(lists)
}

/// Adds a target to those of a number that has a list.
fn add_target(targets: &mut Vec<Vec<usize>>, from: usize, to: usize) -> M<()>
    requires { from < vec_len targets.old }
    ensures len { OnOk result (vec_len targets.new ≡ vec_len targets.old) }
    ensures added { OnOk result (IsTarget targets.new.items from to) }
    ensures kept { OnOk result ((i j : ℕ) → IsTarget targets.old.items i j
        → IsTarget targets.new.items i j) }
    ensures only { OnOk result ((i j : ℕ) → IsTarget targets.new.items i j
        → IsTarget targets.old.items i j ⊎ ((i ≡ from) × (j ≡ to))) }
{
    targets[from].push(to)?;
    Ok(())
}

/// The places of the keys that edges go to, by the place of the key that they are from. Both have
/// to be there.
fn places_of_edges<K: Ord + Hash + QuickHash + Drop, V: TCNode<K>>(
    alloc: Global,
    nodes: &Table<K, V>,
    edges: &[(K, K)],
) -> Result<Vec<Vec<usize>>, TableFault<K>>
    ensures len { IfOk result (λ targets. vec_len targets ≡ length nodes.now.entries) }
    ensures targets { IfOk result (λ targets.
        AreTargetsOf K.eq (keys_of nodes.now.entries) edges.now targets.items) }
    ensures fault { IfErr result
        (IsLack (HasEntry K.eq nodes.now.entries) (IsEndIn K.eq edges.now)) }
{
    let mut targets = empty_lists(alloc, nodes.len())?;
    for edge in edges {
        let from = place_of(nodes, &edge.0)?;
        let to = place_of(nodes, &edge.1)?;
        add_target(&mut targets, from, to)?;
    }
    Ok(targets)
}

/// A table whose nodes have gained an edge to each key that a chain of one or more of the edges
/// reaches from their own.
///
/// An edge goes from its first key to its second. Both have to be keys of the table, else it is
/// refused with `Lacks` and that key. Each node stays alike but for its edges, of which it loses
/// none. With `enforce_dag` it is refused with `HasCycle` where a chain of the edges leads from a
/// key back to it, with that key. The only other refusal is that memory ran out.
pub fn link_table<K: Ord + Hash + QuickHash + Drop, V: TCNode<K> + Drop>(
    alloc: Global,
    nodes: Table<K, V>,
    edges: Vec<(K, K)>,
    enforce_dag: bool,
) -> Result<Table<K, V>, TableFault<K>>
    ensures linked { IfOk result (λ linked. HoldsPairwise (IsLinkedTo V.has_edge V.is_alike
        (IsEdgeIn K.eq edges.items)) nodes.entries linked.entries) }
    ensures acyclic { OnOk result (IsTrue enforce_dag → (key : K)
        → ¬ Chain (IsEdgeIn K.eq edges.items) key key) }
    ensures fault { IfErr result (IsFaultOf
        (λ key. IsTrue enforce_dag × Chain (IsEdgeIn K.eq edges.items) key key)
        (λ key. IsEndIn K.eq edges.items key × ¬ HasEntry K.eq nodes.entries key)) }
{
    let targets = places_of_edges(alloc, &nodes, &edges)?;
    // Before closing takes memory.
    drop(edges);
    let known = empty_lists(alloc, nodes.len())?;
    closed_table(alloc, nodes, &targets, &known, enforce_dag)
}
