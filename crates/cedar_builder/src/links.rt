//! Entity types or actions linked with their descendants: all that chains of parents reach.

ghost use Rattle.std.specs.Prelude.{◌↔◌, IfErr, IfOk, IsTrue, OnOk};
ghost use Rattle.cedar_builder.specs.Words.{AreAlike, AreLocated, AreReady, Chain, IsCycle, IsDistinct, IsEdgeIn, Leads, at_key, keys_of};

use cedar_ast::QuickHash;
use cedar_graph::{TableFault, link_table};
use cedar_schema_elements::SchemaNode;
use cedar_table::Table;
use std::alloc::Global;
use std::hash::Hash;

/// Adds to the descendants of each node, of which it must have none before, those that chains of
/// edges lead to from it. With `enforce_dag` a chain that leads back is refused.
pub(crate) fn link<K: Ord + Hash + QuickHash + Drop, V: SchemaNode<K> + Drop>(
    alloc: Global,
    nodes: Table<K, V>,
    edges: Vec<(K, K)>,
    enforce_dag: bool,
) -> Result<Table<K, V>, TableFault<K>>
    ensures distinct { IfOk result (λ linked. IsDistinct K.eq (keys_of linked.entries)) }
    ensures located { IfOk result (λ linked. AreLocated V.IsLocatedAs nodes.entries
        → AreLocated V.IsLocatedAs linked.entries) }
    ensures alike { IfOk result (λ linked. (key : K)
        → AreAlike V.is_alike (at_key K.eq nodes.entries key) (at_key K.eq linked.entries key)) }
    ensures linked { IfOk result (λ linked. AreReady K.eq V.has_edge edges.items nodes.entries
        → (upper lower : K) → Leads K.eq V.has_edge linked.entries upper lower
        ↔ Chain (IsEdgeIn K.eq edges.items) upper lower) }
    ensures acyclic { OnOk result (IsTrue enforce_dag
        → (key : K) → ¬ Chain (IsEdgeIn K.eq edges.items) key key) }
    ensures fault { IfErr result (λ refused. AreReady K.eq V.has_edge edges.items nodes.entries
        → IsCycle (IsEdgeIn K.eq edges.items) enforce_dag refused) }
{
    let linked = link_table::<K, V>(alloc, nodes, edges, enforce_dag)?;
    linked.keys_ascend();
    Ok(linked)
}
