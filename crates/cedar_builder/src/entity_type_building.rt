//! The entity types of a schema, built: the steps for them in turn.

ghost use Rattle.std.specs.Prelude.{◌≡◌, ◌⊎◌, IfErr, IfOk, OnOk};
ghost use Rattle.cedar_builder.specs.Words.{AreDeclaredEntityTypes, AreLocatedAsKeys, Bag, EntityTypesAreSound, Extensions, IsFault, IsReady, fault_of, out_of_memory, written_entities};

use crate::declared_node::collected_nodes;
use crate::entity_type_links::linked_nodes;
use crate::parents::parent_edges;
use cedar_ast::EntityType;
use cedar_elaboration::TypeScope;
use cedar_fragments::namespace::EntityTypeFragment;
use cedar_name_resolution::Written;
use cedar_name_resolution::defs::WrittenName;
use cedar_schema_elements::ValidatorEntityType;
use cedar_schema_semantics::SchemaError;
use cedar_table::Table;
use std::alloc::Global;

/// The entity types of a schema, each with all its descendants: what the definition of a name says,
/// or an external one where there are only external declarations of it. A name may have one
/// definition and any number of external declarations beside it, and the parents of all of them
/// count.
///
/// It errs where a name has two definitions, a shape is no record type, a shape or a type of tags
/// can't be elaborated, a parent is no declared entity type or has a reserved name, an enumerated
/// entity type has a parent, an external entity type has an enumerated one above it, or memory runs
/// out.
pub fn entity_types<N: WrittenName + Drop>(
    alloc: Global,
    declared: Vec<Box<(EntityType, Written<EntityTypeFragment<N>>)>>,
    scope: &TypeScope,
) -> Result<Table<EntityType, ValidatorEntityType>, SchemaError>
    ensures declared { IfOk result (λ types. (bag : Bag) (extensions : Extensions)
        → IsReady bag extensions (written_entities N N.refer declared.items) scope.now
        → AreDeclaredEntityTypes bag extensions types.entries) }
    ensures located { IfOk result (λ types. AreLocatedAsKeys types.entries) }
    ensures sound { OnOk result ((bag : Bag) (extensions : Extensions)
        → IsReady bag extensions (written_entities N N.refer declared.items) scope.now
        → EntityTypesAreSound bag extensions) }
    ensures fault { IfErr result (λ error. (bag : Bag) (extensions : Extensions)
        → IsReady bag extensions (written_entities N N.refer declared.items) scope.now
        → (fault_of error ≡ out_of_memory) ⊎ IsFault bag extensions (fault_of error)) }
{
    let edges = parent_edges(alloc, &declared, scope.defs)?;
    let nodes = collected_nodes::<
        EntityType,
        TypeScope,
        Written<EntityTypeFragment<N>>,
        ValidatorEntityType,
    >(alloc, declared, scope)?;
    linked_nodes(alloc, nodes, edges)
}
