//! What the closure asks of a node.

ghost use Rattle.std.specs.Prelude.{◌≡◌, Bool, ◌||◌, IsTrue, IfOk, OnOk, OnErr};
ghost use Rattle.std.specs.List.{list_any};

use cedar_ast::M;
use std::collections::btree_set;
use std::hash::Hash;

/// A node with edges to keys.
///
/// The ghost members are what contracts speak of: which keys a node has an edge to, its own key,
/// and when two nodes are alike but for their edges.
pub trait TCNode<K: Eq + Hash> {
    ghost has_edge: { Self → K → Bool };

    ghost own_key: { Self → K };

    ghost is_alike: { Self → Self → Type 0 };

    /// An equal key. Out of memory is the only refusal.
    fn copy_key(key: &K) -> M<K>
        ensures { IfOk result (λ copy. IsTrue (K.eq key.now copy)) };

    /// The node's own key. The closure knows a node by its key in the map, and never asks.
    fn get_key(&self) -> &K
        ensures { result.now ≡ own_key self.now };

    /// Adds an edge to the key and changes nothing else. Out of memory is the only refusal, after
    /// which the node has the edges it had.
    fn add_edge_to(&mut self, key: K) -> M<()>
        ensures added { OnOk result ((other : K) → has_edge self.new other
            ≡ (K.eq key other || has_edge self.old other)) }
        ensures err { OnErr result ((other : K)
            → has_edge self.new other ≡ has_edge self.old other) }
        ensures alike { is_alike self.old self.new };

    /// Adds an edge to each of the keys and changes nothing else. Out of memory is the only
    /// refusal, after which the node has the edges it had.
    fn add_edges_to(&mut self, keys: Vec<K>) -> M<()>
        ensures added { OnOk result ((other : K) → has_edge self.new other
            ≡ (list_any (K.eq other) keys.items || has_edge self.old other)) }
        ensures err { OnErr result ((other : K)
            → has_edge self.new other ≡ has_edge self.old other) }
        ensures alike { is_alike self.old self.new };

    /// The keys that the node has an edge to.
    fn out_edges(&self) -> btree_set::Iter<'_, K>
        ensures { (other : K) → list_any (K.eq other) result ≡ has_edge self.now other };

    /// Whether the node has an edge to the key.
    fn has_edge_to(&self, key: &K) -> bool
        ensures { result ≡ has_edge self.now key.now };

    /// Does nothing to the edges or to the rest of the node.
    fn reset_edges(&mut self)
        ensures edges { (other : K) → has_edge self.new other ≡ has_edge self.old other }
        ensures alike { is_alike self.old self.new };

    ghost edges_respect_eq: { (node : Self) (a b : K) → IsTrue (K.eq a b)
        → has_edge node a ≡ has_edge node b };

    ghost alike_itself: { (node : Self) → is_alike node node };

    ghost alike_onwards: { (a b c : Self) → is_alike a b → is_alike b c → is_alike a c };
}
