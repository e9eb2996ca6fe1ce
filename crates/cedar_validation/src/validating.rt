//! A schema that was put together by hand, checked.

ghost use Rattle.std.specs.Prelude.{◌≡◌, ◌⊎◌, IfErr, IfOk, List, OnOk};
ghost use Rattle.cedar_schema_elements.specs.ValidatorActionId as action_specs;
ghost use Rattle.cedar_validation.specs.Words.{ActionEntity, AreMentionsSound, AreNamesSound, ClosesSchema, IsClosed, IsValidationFault, IsSchemaFault, IsValidSchema, fault_of, out_of_memory, plain_parts, plain_schema, whole_schema};
ghost use Rattle.cedar_schema_elements.specs.ValidatorEntityType as type_specs;

use crate::closing::{closed_actions, closed_types};
use crate::copies::{copied_actions, copied_types};
use crate::hierarchy::check_hierarchy;
use crate::known::{Known, action_types};
use crate::mentions::check_mentions;
use crate::names::{
    check_action_types, check_shadowed_actions, check_shadowed_types, check_type_names,
};
use crate::parts::Parts;
use crate::request_types::check_actions;
use cedar_ast::{EntityType, EntityUID, Extensions};
use cedar_schema_elements::{ValidatorActionId, ValidatorEntityType};
use cedar_schema_semantics::SchemaError;
use cedar_table::Table;
use std::alloc::Global;

/// Refuses names that may not stand, or not beside one another.
fn check_names(alloc: Global, parts: &Parts) -> Result<(), SchemaError>
    ensures sound { OnOk result (AreNamesSound (plain_parts parts.now)) }
    ensures fault { IfErr result (λ error.
        IsValidationFault (plain_parts parts.now) (fault_of error)) }
{
    check_type_names(parts)?;
    check_action_types(parts)?;
    check_shadowed_types(alloc, parts)?;
    check_shadowed_actions(alloc, parts)
}

/// Refuses entity types and extension types that stand in types and aren't known.
fn check_types(alloc: Global, parts: &Parts, extensions: &Extensions) -> Result<(), SchemaError>
    ensures sound { OnOk result (AreMentionsSound extensions.now (plain_parts parts.now)) }
    ensures fault { IfErr result (λ error. (fault_of error ≡ out_of_memory)
        ⊎ IsSchemaFault extensions.now (plain_parts parts.now) (fault_of error)) }
{
    let types = action_types(alloc, parts)?;
    let known = Known {
        alloc,
        parts,
        action_types: &types,
        extensions,
    };
    check_mentions(&known)
}

/// Refuses a schema with any fault, where its descendants are closed.
fn check_parts(alloc: Global, parts: &Parts, extensions: &Extensions) -> Result<(), SchemaError>
    ensures valid { OnOk result (IsClosed (plain_parts parts.now)
        → IsValidSchema extensions.now (plain_parts parts.now)) }
    ensures fault { IfErr result (λ error. (fault_of error ≡ out_of_memory)
        ⊎ IsSchemaFault extensions.now (plain_parts parts.now) (fault_of error)) }
{
    check_names(alloc, parts)?;
    check_types(alloc, parts, extensions)?;
    check_hierarchy(alloc, parts)?;
    check_actions(alloc, parts)
}

/// A schema of entity types and actions, checked: the same with all their descendants.
///
/// It is refused with `CycleInActionHierarchy` if an action is its own descendant, with
/// `ActionEntityTypeDeclared` if an entity type has the base name `Action`, with
/// `InvalidActionType` if the type of an action hasn't, with `TypeShadowing` or `ActionShadowing`
/// if an entity type or an action without a namespace stands beside one of the same name in a
/// namespace, with `UndeclaredEntityTypes` if an entity type that stands in attributes, tags or a
/// context is neither an entity type of the schema nor the type of one of its actions, or if a
/// descendant, a principal or a resource is no entity type of the schema, with
/// `UnknownExtensionType` if an extension type that stands in a type wasn't handed in, with
/// `EnumEntityInHierarchy` if an enumerated entity type is a descendant of any, with
/// `ExternalWithEnumAncestor` if an external one is a descendant of an enumerated one, with
/// `UndeclaredActionsDescendant` if a descendant of an action is no action of the schema, and with
/// `Memory` if memory runs out. Whether contexts are records isn't looked at. These are the rules
/// of the validator of Cedar for a schema that is given by its parts.
pub fn validate(
    alloc: Global,
    entity_types: Table<EntityType, ValidatorEntityType>,
    actions: Table<EntityUID, ValidatorActionId>,
    extensions: &Extensions,
) -> Result<Parts, SchemaError>
    ensures fault { IfErr result (λ error.
        (entities : List ActionEntity) → (fault_of error ≡ out_of_memory)
        ⊎ IsSchemaFault extensions.now (plain_schema entity_types.entries actions.entries entities)
        (fault_of error)) }
    ensures valid { OnOk result ((entities : List ActionEntity)
        → IsValidSchema extensions.now
        (plain_schema entity_types.entries actions.entries entities)) }
    ensures types_located { IfOk result (λ it. type_specs.AreLocatedAsKeys entity_types.entries
        → type_specs.AreLocatedAsKeys it.entity_types.entries) }
    ensures actions_located { IfOk result (λ it. action_specs.AreLocatedAsKeys actions.entries
        → action_specs.AreLocatedAsKeys it.actions.entries) }
    ensures closed { IfOk result (λ it. (entities : List ActionEntity)
        → ClosesSchema (plain_schema entity_types.entries actions.entries entities)
        (whole_schema it.entity_types.entries it.actions.entries)) }
{
    let parts = Parts {
        entity_types: closed_types(alloc, entity_types)?,
        actions: closed_actions(alloc, actions)?,
    };
    check_parts(alloc, &parts, extensions)?;
    parts.actions.keys_ascend();
    Ok(parts)
}

/// The same of entity types and actions that others hold too, of which copies are checked.
pub fn validate_copies(
    alloc: Global,
    entity_types: &Table<EntityType, ValidatorEntityType>,
    actions: &Table<EntityUID, ValidatorActionId>,
    extensions: &Extensions,
) -> Result<Parts, SchemaError>
    ensures fault { IfErr result (λ error.
        (entities : List ActionEntity) → (fault_of error ≡ out_of_memory)
        ⊎ IsSchemaFault extensions.now
        (plain_schema entity_types.now.entries actions.now.entries entities) (fault_of error)) }
    ensures valid { OnOk result ((entities : List ActionEntity)
        → IsValidSchema extensions.now
        (plain_schema entity_types.now.entries actions.now.entries entities)) }
    ensures types_located { IfOk result (λ it.
        type_specs.AreLocatedAsKeys entity_types.now.entries
        → type_specs.AreLocatedAsKeys it.entity_types.entries) }
    ensures actions_located { IfOk result (λ it.
        action_specs.AreLocatedAsKeys actions.now.entries
        → action_specs.AreLocatedAsKeys it.actions.entries) }
    ensures closed { IfOk result (λ it. (entities : List ActionEntity)
        → ClosesSchema (plain_schema entity_types.now.entries actions.now.entries entities)
        (whole_schema it.entity_types.entries it.actions.entries)) }
{
    let entity_types = copied_types(entity_types)?;
    let actions = copied_actions(actions)?;
    validate(alloc, entity_types, actions, extensions)
}
