//! Entity types and actions as nodes that get edges to what is below them.

use crate::asked::{Question, Rows, check};
use crate::types::actions::{look, view};
use crate::types::entity_types::{enumerated, external, standard};
use cedar_ast::{EntityType, EntityUID, M};
use cedar_graph::TCNode;
use cedar_schema_elements::{ValidatorActionId, ValidatorEntityType};
use checked::names::{entity_type, uid};
use std::alloc::Global;
use std::hash::Hash;
use std::test::Fail;

/// How many edges a node has before one to a key is added, how many after that, and whether it has
/// that edge in the end.
fn counted<K: Eq + Hash + Drop, V: TCNode<K> + Drop>(
    alloc: Global,
    mut node: V,
    key: K,
) -> M<String> {
    let copy = V::copy_key(&key)?;
    let is_added = copy == key;
    let before = node.out_edges().count();
    node.add_edge_to(key)?;
    let after = node.out_edges().count();
    let is_added = is_added && node.has_edge_to(&copy);
    Ok(format!(in alloc; "{before} {after} {is_added}")?)
}

/// The same where two edges to the key are added at once.
fn counted_at_once<K: Eq + Hash + Drop, V: TCNode<K> + Drop>(
    alloc: Global,
    mut node: V,
    key: K,
) -> M<String> {
    let copy = V::copy_key(&key)?;
    let mut keys = Vec::with_capacity(alloc, 2)?;
    keys.push(V::copy_key(&key)?)?;
    keys.push(key)?;
    let before = node.out_edges().count();
    node.add_edges_to(keys)?;
    let after = node.out_edges().count();
    Ok(format!(in alloc; "{before} {after} {}", node.has_edge_to(&copy))?)
}

/// How a node gets an edge to what a text names.
#[derive(Clone, Copy)]
enum Edge {
    /// A node that is an entity type gets it.
    OfEntityType(Kind),
    /// A node that is an action gets it.
    OfAction(Kind),
    /// A node that is an entity type gets it twice, at once.
    OfEntityTypeAtOnce(Kind),
    /// A node that is an action gets it twice, at once.
    OfActionAtOnce(Kind),
}

/// The kinds of entity types and of actions.
#[derive(Clone, Copy)]
enum Kind {
    /// A standard entity type, or an action that is defined.
    Standard,
    /// An enumerated entity type.
    Enumerated,
    /// What is external.
    External,
}

/// The entity type of a kind.
fn of_kind(alloc: Global, kind: Kind) -> Result<ValidatorEntityType, Fail> {
    match kind {
        Kind::Standard => standard(alloc),
        Kind::Enumerated => enumerated(alloc),
        Kind::External => external(alloc),
    }
}

/// The action of a kind.
fn action(alloc: Global, kind: Kind) -> Result<ValidatorActionId, Fail> {
    match kind {
        Kind::External => look(alloc),
        _ => view(alloc),
    }
}

impl Question for Edge {
    fn answer(self, alloc: Global, text: &str) -> Result<String, Fail> {
        let answer = match self {
            Edge::OfEntityType(kind) => counted::<EntityType, ValidatorEntityType>(
                alloc,
                of_kind(alloc, kind)?,
                entity_type(alloc, text)?,
            ),
            Edge::OfAction(kind) => counted::<EntityUID, ValidatorActionId>(
                alloc,
                action(alloc, kind)?,
                uid(alloc, text)?,
            ),
            Edge::OfEntityTypeAtOnce(kind) => counted_at_once::<EntityType, ValidatorEntityType>(
                alloc,
                of_kind(alloc, kind)?,
                entity_type(alloc, text)?,
            ),
            Edge::OfActionAtOnce(kind) => counted_at_once::<EntityUID, ValidatorActionId>(
                alloc,
                action(alloc, kind)?,
                uid(alloc, text)?,
            ),
        };
        Ok(answer?)
    }
}

/// Entity types that a standard one gets below it.
const STANDARD: Rows = &[("Bar", "1 2 true"), ("Foo", "1 1 true")];

/// Entity types that an enumerated one gets below it.
const ENUMERATED: Rows = &[("Foo", "2 2 true")];

/// Entity types that an external one gets below it.
const EXTERNAL: Rows = &[("Foo", "0 1 true")];

/// Actions that one gets below it.
const DEFINED: Rows = &[("Action::zoom", "1 2 true"), ("Action::peek", "1 1 true")];

/// Actions that an external one gets below it.
const OUTSIDE: Rows = &[("Action::zoom", "1 2 true")];

/// All rows.
const ROWS: &[(Edge, Rows)] = &[
    (Edge::OfEntityType(Kind::Standard), STANDARD),
    (Edge::OfEntityType(Kind::Enumerated), ENUMERATED),
    (Edge::OfEntityType(Kind::External), EXTERNAL),
    (Edge::OfEntityTypeAtOnce(Kind::Standard), STANDARD),
    (Edge::OfEntityTypeAtOnce(Kind::Enumerated), ENUMERATED),
    (Edge::OfEntityTypeAtOnce(Kind::External), EXTERNAL),
    (Edge::OfAction(Kind::Standard), DEFINED),
    (Edge::OfAction(Kind::External), OUTSIDE),
    (Edge::OfActionAtOnce(Kind::Standard), DEFINED),
    (Edge::OfActionAtOnce(Kind::External), OUTSIDE),
];

#[test]
fn nodes_get_each_edge_once(rt: HostRuntime) -> Result<(), Fail> {
    check(rt.alloc(), ROWS)
}
