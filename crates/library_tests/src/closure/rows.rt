//! Rows: small graphs that are closed, and tables that are linked.

use crate::closure::member::{Member, edges_in_all, mark_of, nodes_of};
use cedar_ast::M;
use cedar_graph::{TCNode, compute_tc, compute_tc_counted, link_table};
use cedar_table::Table;
use checked::{holds, one_of, same};
use std::alloc::Global;
use std::collections::BTreeMap;
use std::test::Fail;

/// What closing answers where cycles are refused: how many edges there are in all, or who is on a
/// cycle.
fn refusing(alloc: Global, count: u32, edges: &[(u32, u32)]) -> Result<String, Fail> {
    let mut nodes = nodes_of(alloc, count, edges)?;
    match compute_tc(alloc, &mut nodes, true) {
        Ok(()) => Ok(format!(in alloc; "{} edges", edges_in_all(&nodes))?),
        Err(refused) => Ok(refused.to_string(alloc)?),
    }
}

/// How many edges there are in all where a graph is closed and cycles are allowed.
fn allowing(alloc: Global, count: u32, edges: &[(u32, u32)]) -> Result<usize, Fail> {
    let mut nodes = nodes_of(alloc, count, edges)?;
    compute_tc(alloc, &mut nodes, false)?;
    Ok(edges_in_all(&nodes))
}

/// Graphs: how many nodes and which edges they have, what closing answers where cycles are refused,
/// and how many edges there are in all where they are allowed.
const GRAPHS: &[(u32, &[(u32, u32)], &str, usize)] = &[
    (0, &[], "0 edges", 0),
    (2, &[(0, 1), (1, 9)], "3 edges", 3),
    (
        3,
        &[(0, 1), (1, 1), (1, 2)],
        "a cycle of edges leads back to 1",
        4,
    ),
    (5, &[(0, 1), (1, 4), (2, 3), (3, 4)], "6 edges", 6),
    (4, &[(0, 1), (1, 2), (2, 3)], "6 edges", 6),
    (
        3,
        &[(0, 1), (1, 2), (2, 0)],
        "a cycle of edges leads back to 0 or else a cycle of edges leads back to 1 or else \
         a cycle of edges leads back to 2",
        9,
    ),
];

#[test]
fn graphs_are_closed_or_refused(rt: HostRuntime) -> Result<(), Fail> {
    let alloc = rt.alloc();
    for &(count, edges, refused, total) in GRAPHS {
        one_of(refused, refusing(alloc, count, edges)?.as_str(), refused)?;
        holds(allowing(alloc, count, edges)? == total, refused)?;
    }
    Ok(())
}

/// How many edges the nodes of a table have in all, where each has its key and its mark still.
fn edges_in_table(nodes: &Table<u32, Member>) -> Option<usize> {
    let mut total = 0usize;
    for (key, node) in nodes {
        if node.key != *key || node.mark != mark_of(*key) {
            return None;
        }
        total = total.saturating_add(node.owners.len());
    }
    Some(total)
}

/// What linking three nodes by edges answers, of which the second has an edge to the first: how
/// many edges there are in all, or the refusal.
fn linking(alloc: Global, edges: &[(u32, u32)], enforce_dag: bool) -> Result<String, Fail> {
    let mut ordered = BTreeMap::new(alloc);
    for (key, node) in nodes_of(alloc, 3, &[(1, 0)])? {
        ordered.insert(key, node)?;
    }
    let nodes = Table::from_map(alloc, ordered)?;
    let mut owned = Vec::with_capacity(alloc, edges.len())?;
    owned.extend_from_slice(edges)?;
    match link_table(alloc, nodes, owned, enforce_dag) {
        Ok(linked) => {
            let total = edges_in_table(&linked).ok_or("a node is changed")?;
            Ok(format!(in alloc; "{total} edges")?)
        }
        Err(refused) => Ok(format!(in alloc; "{refused:?}")?),
    }
}

/// Edges that link three nodes, of which the second has an edge to the first, and what that answers
/// where cycles are refused, and where they are allowed.
const LINKED: &[(&[(u32, u32)], &str, &str)] = &[
    (&[], "1 edges", "1 edges"),
    (&[(0, 1), (1, 2)], "4 edges", "4 edges"),
    (
        &[(0, 1), (0, 1), (1, 0)],
        "HasCycle(0) or else HasCycle(1)",
        "4 edges",
    ),
    (&[(0, 1), (1, 9)], "Lacks(9)", "Lacks(9)"),
    (&[(9, 0), (0, 0)], "Lacks(9)", "Lacks(9)"),
];

#[test]
fn tables_are_linked_or_refused(rt: HostRuntime) -> Result<(), Fail> {
    let alloc = rt.alloc();
    for &(edges, refusing, allowing) in LINKED {
        one_of(refusing, linking(alloc, edges, true)?.as_str(), refusing)?;
        same(allowing, linking(alloc, edges, false)?.as_str(), allowing)?;
    }
    Ok(())
}

#[test]
fn an_edge_to_no_node_leads_no_further(rt: HostRuntime) -> Result<(), Fail> {
    let alloc = rt.alloc();
    let mut nodes = nodes_of(alloc, 2, &[(0, 1), (1, 9)])?;
    let joins = compute_tc_counted(alloc, &mut nodes, true)?;
    let first = nodes.get(&0).ok_or("a node is lost")?;
    holds(
        joins == 1 && first.has_edge_to(&9) && *first.get_key() == 0,
        "0 to 9",
    )
}
