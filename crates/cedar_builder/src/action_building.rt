//! The actions of a schema, built: the steps for them in turn.

ghost use Rattle.std.specs.Prelude.{◌≡◌, ◌⊎◌, IfErr, IfOk, OnOk};
ghost use Rattle.cedar_schema_elements.specs.ValidatorActionId.{AreLocatedAsKeys};
ghost use Rattle.cedar_builder.specs.Words.{ActionsAreSound, AreActionsOf, AreDeclaredActions, Bag, Extensions, IsFault, fault_of, out_of_memory, written_actions};

use crate::action_links::linked_nodes;
use crate::action_requests::ActionScope;
use crate::declared_node::collected_nodes;
use crate::parents::parent_edges;
use cedar_ast::{EntityType, EntityUID};
use cedar_elaboration::TypeScope;
use cedar_fragments::namespace::ActionFragment;
use cedar_name_resolution::Written;
use cedar_name_resolution::defs::WrittenName;
use cedar_schema_elements::{ValidatorActionId, ValidatorEntityType};
use cedar_schema_semantics::SchemaError;
use cedar_table::Table;
use std::alloc::Global;

/// The actions of a schema, each with all its descendants: what the definition of a uid says, or an
/// external one where there are only external declarations of it. A uid may have one definition and
/// any number of external declarations beside it, and the parents of all of them count.
///
/// Given are the entity types of the schema too, among which principals and resources have to be.
///
/// It errs where a uid has two definitions, a context is no record type or can't be elaborated, a
/// principal or a resource is no declared entity type or has a reserved name, an action is a
/// descendant of itself, or memory runs out.
pub fn actions<N: WrittenName + Drop>(
    alloc: Global,
    declared: Vec<Box<(EntityUID, Written<ActionFragment<N, N>>)>>,
    entity_types: &Table<EntityType, ValidatorEntityType>,
    scope: &TypeScope,
) -> Result<Table<EntityUID, ValidatorActionId>, SchemaError>
    ensures declared { IfOk result (λ actions. (bag : Bag) (extensions : Extensions)
        → AreActionsOf bag extensions (written_actions N N.refer declared.items) entity_types.now
        scope.now
        → AreDeclaredActions bag extensions actions.entries) }
    ensures located { IfOk result (λ actions. AreLocatedAsKeys actions.entries) }
    ensures sound { OnOk result ((bag : Bag) (extensions : Extensions)
        → AreActionsOf bag extensions (written_actions N N.refer declared.items) entity_types.now
        scope.now
        → ActionsAreSound bag extensions) }
    ensures fault { IfErr result (λ error. (bag : Bag) (extensions : Extensions)
        → AreActionsOf bag extensions (written_actions N N.refer declared.items) entity_types.now
        scope.now
        → (fault_of error ≡ out_of_memory) ⊎ IsFault bag extensions (fault_of error)) }
{
    let edges = parent_edges(alloc, &declared, scope.defs)?;
    let scope = ActionScope {
        entity_types,
        types: scope,
    };
    let nodes = collected_nodes::<
        EntityUID,
        ActionScope,
        Written<ActionFragment<N, N>>,
        ValidatorActionId,
    >(alloc, declared, &scope)?;
    linked_nodes(alloc, nodes, edges)
}
