//! A small node: a member of others.

ghost use Rattle.std.specs.Prelude.{◌≡◌, ◌||◌, ℕ, OnErr, OnOk, nat_eq};
ghost use Rattle.std.specs.List.{list_any};
ghost use Rattle.std.proofs.Common.{ap, refl, ◌∙◌};
ghost use Rattle.std.proofs.lemmas.Bool.{eqb-true};

use cedar_ast::M;
use cedar_graph::TCNode;
use std::alloc::Global;
use std::collections::{BTreeSet, HashMap, btree_set};

/// A node of the tests: its own key, a mark that a closure is to leave alone, and what it is a
/// member of.
#[derive(Drop)]
pub struct Member {
    /// Its own key.
    pub key: u32,
    /// What a closure has to leave alone.
    pub mark: u32,
    /// The keys of what it is a member of.
    pub owners: BTreeSet<u32>,
}

impl TCNode<u32> for Member {
    ghost has_edge = { λ node key. list_any (nat_eq key) node.owners.keys };

    ghost own_key = { λ node. node.key };

    ghost is_alike = { λ a b. (a.key ≡ b.key) × (a.mark ≡ b.mark) };

    fn copy_key(key: &u32) -> M<u32> {
        Ok(*key)
    }

    fn get_key(&self) -> &u32 {
        &self.key
    }

    fn add_edge_to(&mut self, key: u32) -> M<()> {
        self.owners.insert(key)?;
        Ok(())
    }

    fn add_edges_to(&mut self, keys: Vec<u32>) -> M<()>
        ensures added { OnOk result ((other : ℕ) → list_any (nat_eq other) self.new.owners.keys
            ≡ (list_any (nat_eq other) keys.items || list_any (nat_eq other) self.old.owners.keys)) }
        ensures err { OnErr result ((other : ℕ) → list_any (nat_eq other) self.new.owners.keys
            ≡ list_any (nat_eq other) self.old.owners.keys) }
        ensures alike { (self.old.key ≡ self.new.key) × (self.old.mark ≡ self.new.mark) }
    {
        let mut all = keys;
        for owner in &self.owners {
            all.push(*owner)?;
        }
        self.owners = BTreeSet::from_iter(*all.allocator(), all)?;
        Ok(())
    }

    fn out_edges(&self) -> btree_set::Iter<'_, u32> {
        self.owners.iter()
    }

    fn has_edge_to(&self, key: &u32) -> bool {
        self.owners.contains(key)
    }

    fn reset_edges(&mut self) {}

    ghost edges_respect_eq = { λ node a b same.
        ap (λ key. list_any (nat_eq key) node.owners.keys) (eqb-true a b same) };

    ghost alike_itself = { λ node. (refl, refl) };

    ghost alike_onwards = { λ a b c first second. (first.0 ∙ second.0, first.1 ∙ second.1) };
}

/// The mark of the node at a key.
pub fn mark_of(key: u32) -> u32 {
    key.wrapping_mul(7).wrapping_add(3)
}

/// The nodes below the count, each a member of those that the edges name.
pub fn nodes_of(alloc: Global, count: u32, edges: &[(u32, u32)]) -> M<HashMap<u32, Member>> {
    let mut nodes = HashMap::new(alloc);
    for key in 0..count {
        let mut owners = BTreeSet::new(alloc);
        for (from, to) in edges {
            if *from == key {
                owners.insert(*to)?;
            }
        }
        let mark = mark_of(key);
        nodes.insert(key, Member { key, mark, owners })?;
    }
    Ok(nodes)
}

/// How many edges the nodes have in all.
pub fn edges_in_all(nodes: &HashMap<u32, Member>) -> usize {
    let mut total = 0usize;
    for node in nodes.values() {
        total = total.saturating_add(node.owners.len());
    }
    total
}
