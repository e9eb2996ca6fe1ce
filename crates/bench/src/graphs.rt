//! Graphs of entity types that are closed.

use crate::names::{entity_type, entity_types};
use crate::stop::Stop;
use cedar_schema::ValidatorEntityType;
use cedar_schema::below::EntityType;
use std::alloc::Global;
use std::collections::HashMap;
use std::ops::Range;

/// Entity types by name, as nodes of a graph.
pub(crate) type Graph = HashMap<EntityType, ValidatorEntityType>;

/// How many entity types stand right below one that isn't a leaf, in a graph of trees.
const BRANCHES: usize = 8;

/// How the entity types of a graph stand below one another.
#[derive(Clone, Copy)]
pub(crate) enum Shape {
    /// Each below the one before it.
    Chain,
    /// A chain whose first entity type is below the last.
    Ring,
    /// All others below the first.
    Star,
    /// Eight below each, as far as they go.
    Trees,
}

impl Shape {
    /// The numbers of the entity types that stand right below the one of a number, of as many as
    /// there are.
    pub(crate) fn right_below(self, number: usize, count: usize) -> Range<usize> {
        let below = match self {
            Shape::Chain => number.saturating_add(1)..number.saturating_add(2),
            Shape::Ring if number.saturating_add(1) == count => 0..1,
            Shape::Ring => number.saturating_add(1)..number.saturating_add(2),
            Shape::Star if number == 0 => 1..count,
            Shape::Star => 0..0,
            Shape::Trees => {
                let first = number.saturating_mul(BRANCHES).saturating_add(1);
                first..first.saturating_add(BRANCHES)
            }
        };
        below.start.min(count)..below.end.min(count)
    }
}

/// The number of the entity type right above the one of a number, in a graph of trees.
pub(crate) fn right_above(number: usize) -> Range<usize> {
    if number == 0 {
        return 0..0;
    }
    let above = (number - 1) / BRANCHES;
    above..above.saturating_add(1)
}

/// The entity type of a number as a node, with others right below it.
fn node(alloc: Global, number: usize, below: Range<usize>) -> Result<ValidatorEntityType, Stop> {
    let below = entity_types(alloc, below)?;
    let name = entity_type(alloc, number)?;
    Ok(ValidatorEntityType::new_external(alloc, name, below, None)?)
}

/// The graph of a shape, of as many entity types.
pub(crate) fn graph(alloc: Global, shape: Shape, count: usize) -> Result<Graph, Stop> {
    let mut graph = HashMap::new(alloc);
    for number in 0..count {
        let name = entity_type(alloc, number)?;
        let node = node(alloc, number, shape.right_below(number, count))?;
        graph.insert(name, node)?;
    }
    Ok(graph)
}
