//! Laws of entity types and of actions: comparisons, and edges.

ghost use Rattle.std.specs.Prelude.{◌≡◌, ◌↔◌, IsTrue, Contains};
ghost use Rattle.cedar_schema_elements.specs.Words.{ConditionalName, EntityType, EntityUID, SameActionKind, SameItems, StandardValidatorEntityType, ValidatorActionId, ValidatorApplySpec, ValidatorEntityType, ValidatorEntityTypeKind, action_of, descendant_names, entity_type_of, plain_kind, plain_standard, principal_names, principal_references, resource_names, resource_references, uid_of};

use crate::action_id::ValidatorActionId;
use crate::apply_spec::ValidatorApplySpec;
use crate::entity_type::ValidatorEntityType;
use crate::entity_type_kind::{StandardValidatorEntityType, ValidatorEntityTypeKind};
use cedar_ast::{EntityType, EntityUID};
use cedar_graph::TCNode;
use cedar_schema_ast::json_schema::ConditionalName;

/// Apply specs are equal exactly where they have the same principals and the same resources.
pub fn apply_specs_compare_as_sets()
    ensures { (a b : ValidatorApplySpec EntityType)
        → IsTrue (⟦<ValidatorApplySpec<EntityType> as PartialEq>⟧.eq a b)
        ↔ (SameItems (principal_names a) (principal_names b)
        × SameItems (resource_names a) (resource_names b)) }
{}

/// Apply specs over references are equal exactly where they have the same references to principals
/// and the same to resources, each with what it may stand for.
pub fn apply_specs_of_references_compare_as_sets()
    ensures { (a b : ValidatorApplySpec ConditionalName)
        → IsTrue (⟦<ValidatorApplySpec<ConditionalName> as PartialEq>⟧.eq a b)
        ↔ (SameItems (principal_references a) (principal_references b)
        × SameItems (resource_references a) (resource_references b)) }
{}

/// Actions of schemas are equal exactly where they have one uid, are for the same requests and have
/// the same descendants, ignoring locations.
pub fn actions_compare_by_what_they_are()
    ensures { (a b : ValidatorActionId) → IsTrue (⟦<ValidatorActionId as PartialEq>⟧.eq a b)
        ↔ (((action_of a).uid ≡ (action_of b).uid)
        × SameActionKind (action_of a).kind (action_of b).kind
        × SameItems (action_of a).descendants (action_of b).descendants) }
{}

/// As a node of the hierarchy an action has an edge to just its descendants.
pub fn edges_are_descendants()
    ensures { (node : ValidatorActionId) (key : EntityUID)
        → IsTrue (⟦<ValidatorActionId as TCNode<EntityUID>>⟧.has_edge node key)
        ↔ Contains (action_of node).descendants (uid_of key) }
{}

/// Entity types of schemas are equal exactly where they have one name, one kind and the same
/// descendants, ignoring locations.
pub fn entity_types_compare_by_what_they_are()
    ensures { (a b : ValidatorEntityType) → IsTrue (⟦<ValidatorEntityType as PartialEq>⟧.eq a b)
        ↔ ((entity_type_of a ≡ entity_type_of b)
        × SameItems (descendant_names a) (descendant_names b)) }
{}

/// Kinds of entity types are equal exactly where they are the same as plain data: attributes,
/// openness and tags of standard ones, the ids in their order of enumerated ones.
pub fn entity_type_kinds_compare_as_plain_data()
    ensures { (a b : ValidatorEntityTypeKind)
        → IsTrue (⟦<ValidatorEntityTypeKind as PartialEq>⟧.eq a b)
        ↔ (plain_kind a ≡ plain_kind b) }
{}

/// Standard entity types are equal exactly where they have the same attributes, ignoring locations,
/// the same openness and the same type of tags.
pub fn standard_entity_types_compare_as_plain_data()
    ensures { (a b : StandardValidatorEntityType)
        → IsTrue (⟦<StandardValidatorEntityType as PartialEq>⟧.eq a b)
        ↔ (plain_standard a ≡ plain_standard b) }
{}
