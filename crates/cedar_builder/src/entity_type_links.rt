//! Entity types linked with their descendants.

ghost use Rattle.cedar_builder.specs.Words.{AreLinked, AreLocatedAsKeys, AreUnlinked, IfErr, IfOk, IsDistinct, IsLinkingFault, fault_of, keys_of};

use crate::entity_type_checks::{check_descendants, check_edges};
use crate::links::link;
use cedar_ast::{EntityType, Memory};
use cedar_schema_elements::ValidatorEntityType;
use cedar_schema_semantics::SchemaError;
use cedar_table::Table;
use std::alloc::Global;

/// Entity types, each under its name.
pub(crate) type Nodes = Table<EntityType, ValidatorEntityType>;

/// An edge from a parent to an entity type that has it.
pub(crate) type Edge = (EntityType, EntityType);

/// The entity types with all their descendants, which they must not have before.
pub(crate) fn linked_nodes(
    alloc: Global,
    nodes: Nodes,
    edges: Vec<Edge>,
) -> Result<Nodes, SchemaError>
    ensures distinct { IfOk result (λ linked.
        IsDistinct ⟦<EntityType as PartialEq>⟧.eq (keys_of linked.entries)) }
    ensures linked { IfOk result (λ linked. AreUnlinked edges.items nodes.entries
        → AreLinked edges.items nodes.entries linked.entries) }
    ensures located { IfOk result (λ linked.
        AreLocatedAsKeys nodes.entries → AreLocatedAsKeys linked.entries) }
    ensures fault { IfErr result (λ error. AreUnlinked edges.items nodes.entries
        → IsLinkingFault edges.items nodes.entries (fault_of error)) }
{
    check_edges(alloc, &nodes, &edges)?;
    let linked = match link::<EntityType, ValidatorEntityType>(alloc, nodes, edges, false) {
        Ok(linked) => linked,
        Err(_refused) => return Err(SchemaError::Memory(Memory)),
    };
    check_descendants(&linked)?;
    Ok(linked)
}
