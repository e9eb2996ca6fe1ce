//! Actions linked with their descendants.

ghost use Rattle.cedar_builder.specs.Words.{AreReady, IfErr, IfOk, IsDistinct, fault_of, keys_of};
ghost use Rattle.cedar_schema_elements.specs.ValidatorActionId.{AreLocatedAsKeys};
ghost use Rattle.cedar_builder.specs.ActionNodes.{AreLinked, IsLinkingFault, has_descendant};

use crate::links::link;
use cedar_ast::{EntityUID, Memory};
use cedar_graph::TableFault;
use cedar_schema_elements::ValidatorActionId;
use cedar_schema_semantics::SchemaError;
use cedar_table::Table;
use std::alloc::Global;

/// Actions, each under its uid.
pub(crate) type Nodes = Table<EntityUID, ValidatorActionId>;

/// The actions with all their descendants, which they must not have before. A chain of edges that
/// leads back is refused.
pub(crate) fn linked_nodes(
    alloc: Global,
    nodes: Nodes,
    edges: Vec<(EntityUID, EntityUID)>,
) -> Result<Nodes, SchemaError>
    ensures distinct { IfOk result (λ linked.
        IsDistinct ⟦<EntityUID as PartialEq>⟧.eq (keys_of linked.entries)) }
    ensures linked { IfOk result (λ linked.
        AreReady ⟦<EntityUID as PartialEq>⟧.eq has_descendant edges.items nodes.entries
        → AreLinked edges.items nodes.entries linked.entries) }
    ensures located { IfOk result (λ linked.
        AreLocatedAsKeys nodes.entries → AreLocatedAsKeys linked.entries) }
    ensures fault { IfErr result (λ error.
        AreReady ⟦<EntityUID as PartialEq>⟧.eq has_descendant edges.items nodes.entries
        → IsLinkingFault edges.items (fault_of error)) }
{
    match link::<EntityUID, ValidatorActionId>(alloc, nodes, edges, true) {
        Ok(linked) => Ok(linked),
        Err(TableFault::HasCycle(uid)) => Err(SchemaError::CycleInActionHierarchy(uid)),
        Err(TableFault::Lacks(_uid)) => Err(SchemaError::ActionInvariantViolation),
        Err(TableFault::Memory) => Err(SchemaError::Memory(Memory)),
    }
}
