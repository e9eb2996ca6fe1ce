//! What entity types and actions of a schema have in common.

ghost use Rattle.std.specs.Prelude.{◌≡◌, ◌↔◌, Contains, IfOk, IsTrue, List, map};
ghost use Rattle.cedar_schema_elements.specs.Words.{Equal, Fault, IsTotalOrder, Ordering, fault_of};

use cedar_ast::M;
use cedar_graph::TCNode;
use cedar_schema_semantics::SchemaError;
use std::collections::btree_set;
use std::hash::Hash;

/// An entity type or an action of a schema: a node of a hierarchy that has a name, by which others
/// refer to it, and that is declared here or elsewhere.
///
/// The ghost members are what contracts speak of: what a key stands for, the order of names, the
/// name of a node, whether the node is external, whether a key was written where its name was, and
/// its descendants.
pub trait SchemaNode<K: Ord + Hash>: TCNode<K> {
    ghost Name: { Type 0 };

    ghost key_name: { K → Name };

    ghost name_order: { Name → Name → Ordering };

    ghost node_name: { Self → Name };

    ghost IsExternal: { Self → Type 0 };

    ghost IsLocatedAs: { K → Self → Type 0 };

    ghost below: { Self → List Name };

    ghost duplicate_fault: { Name → Fault };

    /// The name of the node.
    fn name(&self) -> &K
        ensures name { key_name result.now ≡ node_name self.now }
        ensures located { IsLocatedAs result.now self.now };

    /// An equal name, located alike. Out of memory is the only refusal.
    fn copy_name(name: &K) -> M<K>
        ensures name { IfOk result (λ copy. key_name copy ≡ key_name name.now) }
        ensures located { IfOk result (λ copy.
            (node : Self) → IsLocatedAs name.now node → IsLocatedAs copy node) };

    /// Whether the node is declared elsewhere.
    fn is_external(&self) -> bool
        ensures { IsTrue result ↔ IsExternal self.now };

    /// The names of the descendants.
    fn descendants(&self) -> btree_set::Iter<'_, K>
        ensures { map key_name result ≡ below self.now };

    /// The refusal of a second definition of a name.
    fn duplicate(name: K) -> SchemaError
        ensures { fault_of result ≡ duplicate_fault (key_name name) };

    ghost same_key: { (a b : K) → IsTrue (K.eq a b) ↔ (key_name a ≡ key_name b) };

    ghost tied_key: { (a b : K) → (K.cmp a b ≡ Equal) ↔ (key_name a ≡ key_name b) };

    ghost order_total: { IsTotalOrder name_order };

    ghost key_order: { (a b : K) → K.cmp a b ≡ name_order (key_name a) (key_name b) };

    ghost below_key: { (node : Self) (name : Name) → Contains (below node) name
        → (key : K) × (key_name key ≡ name) };

    ghost edge_below: { (node : Self) (key : K)
        → IsTrue (Self.has_edge node key) ↔ Contains (below node) (key_name key) };

    ghost alike_named: { (a b : Self) → Self.is_alike a b → node_name a ≡ node_name b };

    ghost alike_external: { (a b : Self) → Self.is_alike a b → IsExternal a → IsExternal b };

    ghost alike_located: { (key : K) (a b : Self) → Self.is_alike a b → IsLocatedAs key a
        → IsLocatedAs key b };
}
