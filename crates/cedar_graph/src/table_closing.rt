//! The closure of the edges of a table of nodes.

ghost use Rattle.std.specs.Prelude.{◌≡◌, ◌⊎◌, ℕ, ◌<◌, Contains, IfErr, IfOk, IfSome, IsTrue, OnOk, length, slice_get, vec_len};
ghost use Rattle.std.specs.Map.{keys_of, values_of};
ghost use Rattle.cedar_graph.specs.Words.{AreInTurn, Chain, HasEntry, HoldsPairwise, IsClosedTo, IsCycle, IsGrown, IsTableFault, IsTarget, ListHas, StandsIn, StepsTo, items_at};

use crate::closing::closed_lists;
use crate::list_edges::add_edges;
use crate::ordering::number_on_cycle;
use crate::places::all_places;
use crate::table_fault::TableFault;
use crate::tc_node::TCNode;
use cedar_ast::{M, QuickHash};
use cedar_table::Table;
use std::alloc::Global;
use std::hash::Hash;

/// What a list has after the numbers that are known, where it begins with these; else all of it.
fn numbers_after<'a>(list: &'a [usize], known: &[usize]) -> &'a [usize]
    ensures only { (number : ℕ) → Contains result.now number → Contains list.now number }
    ensures all { (number : ℕ) → Contains list.now number
        → Contains known.now number ⊎ Contains result.now number }
{
    match list.strip_prefix(known) {
        Some(rest) => rest,
        None => list,
    }
}

/// The nodes in their order, each with an edge to each key whose place stands in the list of its
/// own place. It has those to keys whose places are known there.
fn linked_nodes<K: Eq + Hash + Drop, V: TCNode<K> + Drop>(
    nodes: Vec<V>,
    keys: &Vec<K>,
    lists: &Vec<Vec<usize>>,
    known: &Vec<Vec<usize>>,
) -> M<Vec<V>>
    requires lists { length nodes.items ≡ vec_len lists.now }
    requires known { length nodes.items ≡ vec_len known.now }
    requires within { (i j : ℕ) → IsTarget lists.now.items i j → j < vec_len keys.now }
    requires linked { (i : ℕ) → IfSome (slice_get nodes.items i) (λ node. (to : K)
        → StandsIn K.eq keys.now.items (items_at known.now.items i) to
        → IsTrue (V.has_edge node to)) }
    ensures { IfOk result (λ linked. AreInTurn (λ i. IsGrown V.has_edge V.is_alike
        (StandsIn K.eq keys.now.items (items_at lists.now.items i))) nodes.items linked.items) }
{
    let mut linked = nodes;
    for place in 0..linked.len() {
        add_edges(
            &mut linked[place],
            numbers_after(&lists[place], &known[place]),
            keys,
        )?;
    }
    Ok(linked)
}

/// A table whose nodes have an edge to each key that chains of targets reach from their own, where
/// they have those to keys whose places are known.
pub(crate) fn closed_table<K: Ord + Hash + QuickHash + Drop, V: TCNode<K> + Drop>(
    alloc: Global,
    nodes: Table<K, V>,
    targets: &Vec<Vec<usize>>,
    known: &Vec<Vec<usize>>,
    enforce_dag: bool,
) -> Result<Table<K, V>, TableFault<K>>
    requires len { vec_len targets.now ≡ length nodes.entries }
    requires known { vec_len known.now ≡ length nodes.entries }
    requires within { (i j : ℕ) → IsTarget targets.now.items i j → j < length nodes.entries }
    requires linked { (i : ℕ) → IfSome (slice_get (values_of nodes.entries) i) (λ node. (to : K)
        → StandsIn K.eq (keys_of nodes.entries) (items_at known.now.items i) to
        → IsTrue (V.has_edge node to)) }
    ensures closed { IfOk result (λ closed. AreInTurn (λ i it other. (other.0 ≡ it.0)
        × IsGrown V.has_edge V.is_alike
        (Chain (ListHas K.eq (keys_of nodes.entries) targets.now.items) it.0) it.1 other.1)
        nodes.entries closed.entries) }
    ensures acyclic { OnOk result (IsTrue enforce_dag
        → (key : K) → ¬ Chain (ListHas K.eq (keys_of nodes.entries) targets.now.items) key key) }
    ensures fault { IfErr result
        (IsCycle (ListHas K.eq (keys_of nodes.entries) targets.now.items) enforce_dag) }
{
    // Before closing: what a ring reaches is the square of its length.
    let on_cycle = number_on_cycle(alloc, targets, enforce_dag)?;
    let (keys, values) = nodes.into_parts();
    if let Some(place) = on_cycle {
        return Err(TableFault::HasCycle(V::copy_key(&keys.as_vec()[place])?));
    }
    let (lists, _joins) = closed_lists(alloc, targets, values.len())?;
    let linked = linked_nodes(values, keys.as_vec(), &lists, known)?;
    Ok(Table::from_parts(keys, linked))
}

/// A table whose nodes have an edge to each key that a chain of one or more edges reaches from
/// their own.
///
/// Each edge has to lead to a key of the table, else it is refused with `Lacks` and that key. Each
/// node stays alike but for its edges. With `enforce_dag` it is refused with `HasCycle` where some
/// node reaches itself, whose key it holds. The only other refusal is that memory ran out.
pub fn close_table<K: Ord + Hash + QuickHash + Drop, V: TCNode<K> + Drop>(
    alloc: Global,
    nodes: Table<K, V>,
    enforce_dag: bool,
) -> Result<Table<K, V>, TableFault<K>>
    ensures closed { IfOk result (λ closed. HoldsPairwise (IsClosedTo V.has_edge V.is_alike
        (StepsTo K.eq V.has_edge nodes.entries)) nodes.entries closed.entries) }
    ensures declared { OnOk result ((from to : K) → StepsTo K.eq V.has_edge nodes.entries from to
        → HasEntry K.eq nodes.entries to) }
    ensures acyclic { OnOk result (IsTrue enforce_dag → (key : K)
        → ¬ Chain (StepsTo K.eq V.has_edge nodes.entries) key key) }
    ensures fault { IfErr result (IsTableFault (StepsTo K.eq V.has_edge nodes.entries)
        (HasEntry K.eq nodes.entries) enforce_dag) }
{
    let targets = all_places(alloc, &nodes)?;
    closed_table(alloc, nodes, &targets, &targets, enforce_dag)
}
