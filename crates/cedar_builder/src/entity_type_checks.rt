//! What is refused of the edges between entity types.

ghost use Rattle.std.specs.Prelude.{◌≡◌, ◌⊎◌, ◌↔◌, Contains, IfErr, IsTrue, OnOk};
ghost use Rattle.cedar_ast.specs.declared.entity_type.EntityType.{EntityType as Key};
ghost use Rattle.cedar_builder.specs.Words.{IsEdgeFault, IsEdgeSound, IsEnumeratedAt, IsExternalAt, IsLinkFault, EntityTypeLeadsTo, fault_of, node_at, out_of_memory};

use crate::entity_type_links::{Edge, Nodes};
use cedar_ast::{EntityType, NonEmpty};
use cedar_schema_semantics::SchemaError;
use std::alloc::Global;
use std::collections::BTreeSet;

/// Whether an enumerated entity type stands under a name.
fn is_enumerated_at(nodes: &Nodes, name: &EntityType) -> bool
    ensures { IsTrue result ↔ IsEnumeratedAt (node_at nodes.now.entries name.now) }
{
    match nodes.get(name) {
        Some(ty) => ty.is_enumerated(),
        None => false,
    }
}

/// Whether an external entity type stands under a name.
fn is_external_at(nodes: &Nodes, name: &EntityType) -> bool
    ensures { IsTrue result ↔ IsExternalAt (node_at nodes.now.entries name.now) }
{
    match nodes.get(name) {
        Some(ty) => ty.is_external(),
        None => false,
    }
}

/// Refuses an edge from what isn't declared, and one to an enumerated entity type.
fn check_edge(
    alloc: Global,
    nodes: &Nodes,
    lower: &EntityType,
    upper: &EntityType,
) -> Result<(), SchemaError>
    ensures sound { OnOk result (IsEdgeSound nodes.now.entries lower.now upper.now) }
    ensures fault { IfErr result (λ error.
        (fault_of error ≡ out_of_memory)
        ⊎ IsEdgeFault nodes.now.entries lower.now upper.now (fault_of error)) }
{
    if !nodes.contains_key(upper) {
        return Err(SchemaError::UndeclaredEntityTypes(NonEmpty {
            head: upper.clone()?,
            tail: Vec::new(alloc),
        }));
    }
    if is_enumerated_at(nodes, lower) {
        return Err(SchemaError::EnumEntityInHierarchy(lower.clone()?, upper.clone()?));
    }
    Ok(())
}

/// Checks each edge.
pub(crate) fn check_edges(alloc: Global, nodes: &Nodes, edges: &[Edge]) -> Result<(), SchemaError>
    ensures sound { OnOk result ((edge : Key × Key) → Contains edges.now edge
        → IsEdgeSound nodes.now.entries edge.1 edge.0) }
    ensures fault { IfErr result (λ error. (fault_of error ≡ out_of_memory)
        ⊎ ((edge : Key × Key) × Contains edges.now edge
        × IsEdgeFault nodes.now.entries edge.1 edge.0 (fault_of error))) }
{
    for edge in edges {
        check_edge(alloc, nodes, &edge.1, &edge.0)?;
    }
    Ok(())
}

/// Refuses an external entity type among the descendants of an enumerated one.
fn check_below(
    nodes: &Nodes,
    upper: &EntityType,
    descendants: &BTreeSet<EntityType>,
) -> Result<(), SchemaError>
    ensures sound { OnOk result ((lower : Key) → Contains descendants.now.keys lower
        → ¬ IsExternalAt (node_at nodes.now.entries lower)) }
    ensures fault { IfErr result (λ error. (fault_of error ≡ out_of_memory)
        ⊎ ((lower : Key) × Contains descendants.now.keys lower
        × IsExternalAt (node_at nodes.now.entries lower)
        × IsLinkFault lower upper.now (fault_of error))) }
{
    for lower in descendants {
        if is_external_at(nodes, lower) {
            return Err(SchemaError::ExternalWithEnumAncestor(lower.clone()?, upper.clone()?));
        }
    }
    Ok(())
}

/// Checks the descendants of each enumerated entity type.
pub(crate) fn check_descendants(nodes: &Nodes) -> Result<(), SchemaError>
    ensures sound { OnOk result ((upper lower : Key)
        → EntityTypeLeadsTo nodes.now.entries upper lower
        → IsEnumeratedAt (node_at nodes.now.entries upper)
        → ¬ IsExternalAt (node_at nodes.now.entries lower)) }
    ensures fault { IfErr result (λ error. (fault_of error ≡ out_of_memory)
        ⊎ ((upper lower : Key) × EntityTypeLeadsTo nodes.now.entries upper lower
        × IsEnumeratedAt (node_at nodes.now.entries upper)
        × IsExternalAt (node_at nodes.now.entries lower)
        × IsLinkFault lower upper (fault_of error))) }
{
    for (name, ty) in nodes {
        if ty.is_enumerated() {
            check_below(nodes, name, &ty.descendants)?;
        }
    }
    Ok(())
}
