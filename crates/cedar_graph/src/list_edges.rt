//! What keys reach, converted back to edges of nodes.

ghost use Rattle.std.specs.Prelude.{◌≡◌, ℕ, ◌<◌, ◌≤◌, Contains, IfOk, IsTrue, OnOk, vec_len};
ghost use Rattle.std.specs.List.{list_any};
ghost use Rattle.std.specs.HashMap.{get, keys, ContainsKey};
ghost use Rattle.cedar_graph.specs.Words.{GrowsAt, GrowsBy, HasEdge, IsTarget, ListHas, StandsIn};

use crate::tc_node::TCNode;
use cedar_ast::M;
use std::collections::HashMap;
use std::hash::Hash;

/// Copies of the names whose numbers stand in the list.
fn named<K: Eq + Hash + Drop, V: TCNode<K>>(numbers: &[usize], names: &Vec<K>) -> M<Vec<K>>
    requires { (number : ℕ) → Contains numbers.now number → number < vec_len names.now }
    ensures sound { IfOk result (λ keys. (to : K) → IsTrue (list_any (K.eq to) keys.items)
        → StandsIn K.eq names.now.items numbers.now to) }
    ensures complete { IfOk result (λ keys. (to : K)
        → StandsIn K.eq names.now.items numbers.now to
        → IsTrue (list_any (K.eq to) keys.items)) }
{
    let mut keys = Vec::with_capacity(*names.allocator(), numbers.len())?;
    for number in numbers {
        keys.push(V::copy_key(&names[*number])?)?;
    }
    Ok(keys)
}

/// Adds to the node an edge to each name whose number stands in the list.
pub(crate) fn add_edges<K: Eq + Hash + Drop, V: TCNode<K>>(
    node: &mut V,
    numbers: &[usize],
    names: &Vec<K>,
) -> M<()>
    requires { (number : ℕ) → Contains numbers.now number → number < vec_len names.now }
    ensures grows { GrowsBy V.has_edge V.is_alike node.old node.new
        (StandsIn K.eq names.now.items numbers.now) }
    ensures complete { OnOk result ((to : K) → StandsIn K.eq names.now.items numbers.now to
        → IsTrue (V.has_edge node.new to)) }
{
    node.add_edges_to(named::<K, V>(numbers, names)?)
}

/// Adds to the node at the name an edge to each name whose number stands in the list.
fn add_edges_at<K: Eq + Hash + Drop, V: TCNode<K>>(
    nodes: &mut HashMap<K, V>,
    name: &K,
    numbers: &[usize],
    names: &Vec<K>,
) -> M<()>
    requires { (number : ℕ) → Contains numbers.now number → number < vec_len names.now }
    ensures keys { keys nodes.new ≡ keys nodes.old }
    ensures grows { (key : K) → GrowsAt V.has_edge V.is_alike (get K.eq nodes.old key)
        (get K.eq nodes.new key)
        (λ to. IsTrue (K.eq name.now key) × StandsIn K.eq names.now.items numbers.now to) }
    ensures complete { OnOk result
        ((key to : K) → IsTrue (K.eq name.now key) → ContainsKey K.eq nodes.old key
        → StandsIn K.eq names.now.items numbers.now to
        → HasEdge K.eq V.has_edge nodes.new key to) }
{
    if numbers.is_empty() {
        return Ok(());
    }
    match nodes.get_mut(name) {
        Some(node) => add_edges(node, numbers, names),
        None => Ok(()),
    }
}

/// Adds to each node an edge to each name whose number stands in the list of its number.
pub(crate) fn add_all_edges<K: Eq + Hash + Drop, V: TCNode<K>>(
    nodes: &mut HashMap<K, V>,
    names: &Vec<K>,
    lists: &Vec<Vec<usize>>,
) -> M<()>
    requires few { vec_len lists.now ≤ vec_len names.now }
    requires within { (i j : ℕ) → IsTarget lists.now.items i j → j < vec_len names.now }
    ensures keys { keys nodes.new ≡ keys nodes.old }
    ensures grows { (key : K) → GrowsAt V.has_edge V.is_alike (get K.eq nodes.old key)
        (get K.eq nodes.new key)
        (ListHas K.eq names.now.items lists.now.items key) }
    ensures complete { OnOk result ((key to : K)
        → ListHas K.eq names.now.items lists.now.items key to
        → ContainsKey K.eq nodes.old key → HasEdge K.eq V.has_edge nodes.new key to) }
{
    for i in 0..lists.len() {
        add_edges_at(nodes, &names[i], &lists[i], names)?;
    }
    Ok(())
}
