//! Calls that change what they are given, and what stands after a growth of theirs was refused.

use crate::by_hand::external;
use crate::names::{entity_type, entity_types, internal_names};
use crate::stop::{Stop, refused_where};
use cedar_schema::below::{EntityType, InternalName, M};
use cedar_schema::defs::AllDefs;
use cedar_schema::namespace::ValidatorSchemaFragment;
use cedar_schema::{TCNode, TcError, ValidatorEntityType, compute_tc};
use std::alloc::Global;
use std::collections::HashMap;

/// A fragment over full names.
type Fragment = ValidatorSchemaFragment<InternalName, EntityType>;

/// Entity types by name, as nodes of a graph.
type Graph = HashMap<EntityType, ValidatorEntityType>;

/// A node with an edge to the next number, unless it is the last one.
fn node(alloc: Global, number: usize, last: usize) -> Result<ValidatorEntityType, Stop> {
    let mut node = external(alloc, number)?;
    if number < last {
        node.add_edge_to(entity_type(alloc, number.saturating_add(1))?)?;
    }
    Ok(node)
}

/// The number of the first node of the chain.
const FIRST: usize = 10;

/// The number of the last node of the chain, the 65th: a row of its closure takes two words.
const LAST: usize = 74;

/// The chain, each node with an edge to the next.
fn chain(alloc: Global) -> Result<Graph, Stop> {
    let mut graph = HashMap::new(alloc);
    for number in FIRST..LAST + 1 {
        let name = entity_type(alloc, number)?;
        graph.insert(name, node(alloc, number, LAST)?)?;
    }
    Ok(graph)
}

/// Whether all edges of a node lead to names after its own.
fn leads_onwards(name: &EntityType, node: &ValidatorEntityType) -> bool {
    for lower in &node.descendants {
        if lower <= name {
            return false;
        }
    }
    true
}

/// Whether each node of a chain has its edge to the next, and no edge but to those after it.
fn is_within_closure(graph: &Graph, names: &[EntityType]) -> bool {
    let mut next = None;
    for name in names.iter().rev() {
        let Some(node) = graph.get(name) else {
            return false;
        };
        if !leads_onwards(name, node) || next.is_some_and(|next| !node.has_edge_to(next)) {
            return false;
        }
        next = Some(name);
    }
    true
}

/// How many edges the nodes have, all together.
fn edges(graph: &Graph) -> usize {
    let mut count = 0usize;
    for node in graph.values() {
        count = count.saturating_add(node.descendants.len());
    }
    count
}

/// How many edges the closure of the chain has.
pub(crate) fn closed(alloc: Global) -> Result<String, Stop> {
    let names = entity_types(alloc, FIRST..LAST + 1)?;
    let mut graph = chain(alloc)?;
    let closed = compute_tc(alloc, &mut graph, true);
    let stands = is_within_closure(&graph, &names);
    match closed {
        Ok(()) if stands => Ok(format!(in alloc; "{} edges\n", edges(&graph))?),
        Err(TcError::Memory) => Err(refused_where(stands)),
        _ => Err(Stop::Changed),
    }
}

/// Whether a node has an edge to each of some names, and no other.
fn leads_just_to(node: &ValidatorEntityType, names: &[EntityType]) -> bool {
    node.descendants.len() == names.len() && names.iter().all(|name| node.has_edge_to(name))
}

/// How many edges a node has to which twenty are added, one after another.
pub(crate) fn edges_added(alloc: Global) -> Result<String, Stop> {
    let names = entity_types(alloc, 10..30)?;
    let mut node = external(alloc, 1)?;
    for (count, name) in names.iter().enumerate() {
        if node.add_edge_to(name.clone()?).is_err() {
            return Err(refused_where(leads_just_to(&node, names.split_at(count).0)));
        }
    }
    Ok(format!(in alloc; "{} edges\n", node.descendants.len())?)
}

/// A kind of names.
#[derive(Clone, Copy)]
pub(crate) enum Kind {
    /// Those of entity types.
    Entity,
    /// Those of common types.
    Common,
}

/// Marks a name as defined.
fn mark(all_defs: &mut AllDefs, kind: Kind, name: InternalName) -> M<()> {
    match kind {
        Kind::Entity => all_defs.mark_as_defined_as_entity_type(name),
        Kind::Common => all_defs.mark_as_defined_as_common_type(name),
    }
}

/// Whether a name is defined as one of a kind, and as no other.
fn is_marked(all_defs: &AllDefs, kind: Kind, name: &InternalName) -> bool {
    match kind {
        Kind::Entity => all_defs.is_defined_as_entity(name) && !all_defs.is_defined_as_common(name),
        Kind::Common => all_defs.is_defined_as_common(name) && !all_defs.is_defined_as_entity(name),
    }
}

/// How many of the names are marked, from the first on, if none after these is.
fn marked(all_defs: &AllDefs, kind: Kind, names: &[InternalName]) -> Option<usize> {
    let mut count = 0usize;
    for (before, name) in names.iter().enumerate() {
        if is_marked(all_defs, kind, name) {
            if count < before {
                return None;
            }
            count = count.saturating_add(1);
        }
    }
    Some(count)
}

/// How many names are marked of twenty that are, one after another.
pub(crate) fn names_marked(alloc: Global, kind: Kind) -> Result<String, Stop> {
    let names = internal_names(alloc, 10..30)?;
    let mut all_defs = AllDefs::new::<Fragment>(alloc, &[])?;
    for (count, name) in names.iter().enumerate() {
        if mark(&mut all_defs, kind, name.clone()?).is_err() {
            return Err(refused_where(marked(&all_defs, kind, &names) == Some(count)));
        }
    }
    let count = marked(&all_defs, kind, &names).ok_or(Stop::Changed)?;
    Ok(format!(in alloc; "{count} names\n")?)
}
