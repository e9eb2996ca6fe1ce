//! The edges of nodes, by the numbers of their targets.

ghost use Rattle.std.specs.Prelude.{◌≡◌, ℕ, vec_len, IfOk, OnOk, IfSome, slice_get};
ghost use Rattle.std.specs.HashMap.{values, hash_map_len};
ghost use Rattle.cedar_graph.specs.Words.{AreNumbers, AreNumbersOf, KeepsNumbers, items_at};

use crate::numbering::{Numbering, number_of};
use crate::tc_node::TCNode;
use cedar_ast::M;
use std::alloc::Global;
use std::collections::HashMap;
use std::hash::Hash;

/// The numbers of the keys that the node has an edge to.
fn targets_of<K: Eq + Hash + Drop, V: TCNode<K>>(
    alloc: Global,
    node: &V,
    numbering: &mut Numbering<K>,
) -> M<Vec<usize>>
    requires { AreNumbers K.eq numbering.old.names.items numbering.old.numbers }
    ensures numbers { OnOk result
        (AreNumbers K.eq numbering.new.names.items numbering.new.numbers) }
    ensures kept { OnOk result
        (KeepsNumbers K.eq numbering.old.names.items numbering.new.names.items) }
    ensures targets { IfOk result (λ targets. AreNumbersOf K.eq numbering.new.names.items
        (V.has_edge node.now) targets.items) }
{
    let mut targets = Vec::new(alloc);
    for target in node.out_edges() {
        targets.push(number_of::<K, V>(numbering, target)?)?;
    }
    Ok(targets)
}

/// The numbers of the keys that each node has an edge to, in the order of the map.
pub(crate) fn all_targets<K: Eq + Hash + Drop, V: TCNode<K>>(
    alloc: Global,
    nodes: &HashMap<K, V>,
    numbering: &mut Numbering<K>,
) -> M<Vec<Vec<usize>>>
    requires { AreNumbers K.eq numbering.old.names.items numbering.old.numbers }
    ensures numbers { OnOk result
        (AreNumbers K.eq numbering.new.names.items numbering.new.numbers) }
    ensures kept { OnOk result
        (KeepsNumbers K.eq numbering.old.names.items numbering.new.names.items) }
    ensures len { IfOk result (λ targets. vec_len targets ≡ hash_map_len nodes.now) }
    ensures targets { IfOk result (λ targets. (i : ℕ)
        → IfSome (slice_get (values nodes.now) i)
        (λ node. AreNumbersOf K.eq numbering.new.names.items (V.has_edge node)
        (items_at targets.items i))) }
{
    let mut targets = Vec::with_capacity(alloc, nodes.len())?;
    for node in nodes.values() {
        targets.push(targets_of(alloc, node, numbering)?)?;
    }
    Ok(targets)
}
