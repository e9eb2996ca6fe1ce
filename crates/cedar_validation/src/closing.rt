//! Descendants, closed.

ghost use Rattle.std.specs.Prelude.{◌≡◌, Contains, IfErr, IfOk, IsTrue, List, OnOk, map};
ghost use Rattle.cedar_schema_elements.specs.ValidatorActionId as action_specs;
ghost use Rattle.cedar_validation.specs.Words.{ActionEntity, Chain, ClosesAction, ClosesType, HoldsPairwise, IsClosedOf, IsListFault, IsValidationFault, DescendsTo, ListsDescendantAction, PlainUid, action_graph_fault, fault_of, plain_action_entry, plain_entry, plain_schema, type_graph_fault};
ghost use Rattle.cedar_schema_elements.specs.declared.action_id.ValidatorActionId.{ValidatorActionId as Action};
ghost use Rattle.cedar_ast.specs.declared.entity_type.EntityType.{EntityType as Name};
ghost use Rattle.cedar_ast.specs.declared.entity_uid.EntityUID.{EntityUID as Uid};
ghost use Rattle.cedar_schema_elements.specs.ValidatorEntityType as type_specs;
ghost use Rattle.cedar_schema_elements.specs.declared.entity_type.ValidatorEntityType.{ValidatorEntityType as Node};

use crate::parts::{Actions, Types};
use cedar_ast::{EntityType, EntityUID, Memory, NonEmpty, QuickHash};
use cedar_graph::{TableFault, close_table};
use cedar_schema_elements::{SchemaNode, ValidatorActionId, ValidatorEntityType};
use cedar_schema_semantics::SchemaError;
use cedar_table::Table;
use std::alloc::Global;
use std::hash::Hash;

/// The nodes with their descendants closed: each with just those that one or more steps of the
/// listed ones reach.
///
/// It is refused with `Lacks` where a node lists one that isn't there. With `enforce_dag` it is
/// refused with `HasCycle` where some node is on a cycle, whose key it holds. The only other
/// refusal is that memory ran out.
fn closed_nodes<K: Ord + Hash + QuickHash + Drop, V: SchemaNode<K> + Drop>(
    alloc: Global,
    nodes: Table<K, V>,
    enforce_dag: bool,
) -> Result<Table<K, V>, TableFault<K>>
    ensures located { IfOk result (λ closed.
        ((it : K × V) → Contains nodes.entries it → V.IsLocatedAs it.0 it.1)
        → (it : K × V) → Contains closed.entries it → V.IsLocatedAs it.0 it.1) }
    ensures closed { IfOk result (λ closed.
        HoldsPairwise (IsClosedOf V.key_name V.below V.is_alike nodes.entries)
        nodes.entries closed.entries) }
    ensures acyclic { OnOk result (IsTrue enforce_dag → (name : V.Name)
        → ¬ DescendsTo V.key_name V.below nodes.entries name name) }
    ensures fault { IfErr result
        (IsListFault V.key_name V.below nodes.entries enforce_dag) }
{
    close_table(alloc, nodes, enforce_dag)
}

/// The refusal of a graph of entity types. No cycle of them is refused.
fn type_refusal(alloc: Global, refused: TableFault<EntityType>) -> SchemaError
    ensures { fault_of result ≡ type_graph_fault refused }
{
    match refused {
        TableFault::Lacks(name) => SchemaError::UndeclaredEntityTypes(NonEmpty {
            head: name,
            tail: Vec::new(alloc),
        }),
        TableFault::HasCycle(_) | TableFault::Memory => SchemaError::Memory(Memory),
    }
}

/// The refusal of a graph of actions.
fn action_refusal(refused: TableFault<EntityUID>) -> SchemaError
    ensures { fault_of result ≡ action_graph_fault refused }
{
    match refused {
        TableFault::HasCycle(uid) => SchemaError::CycleInActionHierarchy(uid),
        TableFault::Lacks(uid) => SchemaError::UndeclaredActionsDescendant(uid),
        TableFault::Memory => SchemaError::Memory(Memory),
    }
}

/// The entity types with their descendants closed: each with just those that one or more steps of
/// the listed ones reach. A descendant that isn't one of the entity types is refused.
pub(crate) fn closed_types(
    alloc: Global,
    types: Table<EntityType, ValidatorEntityType>,
) -> Result<Types, SchemaError>
    ensures located { IfOk result (λ closed.
        type_specs.AreLocatedAsKeys types.entries → type_specs.AreLocatedAsKeys closed.entries) }
    ensures closed { IfOk result (λ closed.
        (actions : List (Uid × Action)) (entities : List ActionEntity)
        → HoldsPairwise (ClosesType (plain_schema types.entries actions entities))
        (map plain_entry types.entries) (map plain_entry closed.entries)) }
    ensures fault { IfErr result (λ error.
        (actions : List (Uid × Action)) (entities : List ActionEntity)
        → IsValidationFault (plain_schema types.entries actions entities) (fault_of error)) }
{
    match closed_nodes::<EntityType, ValidatorEntityType>(alloc, types, false) {
        Ok(closed) => Ok(closed),
        Err(refused) => Err(type_refusal(alloc, refused)),
    }
}

/// The actions with their descendants closed in the same way. An action that is on a cycle is
/// refused.
pub(crate) fn closed_actions(
    alloc: Global,
    actions: Table<EntityUID, ValidatorActionId>,
) -> Result<Actions, SchemaError>
    ensures located { IfOk result (λ closed. action_specs.AreLocatedAsKeys actions.entries
        → action_specs.AreLocatedAsKeys closed.entries) }
    ensures closed { IfOk result (λ closed.
        (types : List (Name × Node)) (entities : List ActionEntity)
        → HoldsPairwise (ClosesAction (plain_schema types actions.entries entities))
        (map plain_action_entry actions.entries) (map plain_action_entry closed.entries)) }
    ensures acyclic { OnOk result ((types : List (Name × Node)) (entities : List ActionEntity)
        (uid : PlainUid)
        → ¬ Chain (ListsDescendantAction (plain_schema types actions.entries entities)) uid uid) }
    ensures fault { IfErr result (λ error.
        (types : List (Name × Node)) (entities : List ActionEntity)
        → IsValidationFault (plain_schema types actions.entries entities) (fault_of error)) }
{
    match closed_nodes::<EntityUID, ValidatorActionId>(alloc, actions, true) {
        Ok(closed) => Ok(closed),
        Err(refused) => Err(action_refusal(refused)),
    }
}
