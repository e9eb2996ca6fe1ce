//! What is refused of the names of entity types and the uids of actions.

ghost use Rattle.std.specs.Prelude.{◌≡◌, [], IfErr, IfOk, OnOk};
ghost use Rattle.cedar_validation.specs.Words.{HasAction, HasEntityType, IsActionType, IsValidationFault, PlainName, PlainUid, ShadowsAction, ShadowsType, fault_of, plain_parts, type_name};

use crate::parts::Parts;
use cedar_ast::{EntityType, EntityUID, InternalName, M, Name};
use cedar_schema_semantics::SchemaError;
use std::alloc::Global;

/// Refuses an entity type with the base name of actions' types.
pub(crate) fn check_type_names(parts: &Parts) -> Result<(), SchemaError>
    ensures sound { OnOk result ((name : PlainName) → HasEntityType (plain_parts parts.now) name
        → ¬ IsActionType name) }
    ensures fault { IfErr result (λ error.
        IsValidationFault (plain_parts parts.now) (fault_of error)) }
{
    for name in parts.entity_types.keys() {
        if name.is_action() {
            let name = name.name().as_internal().clone()?;
            return Err(SchemaError::ActionEntityTypeDeclared(name));
        }
    }
    Ok(())
}

/// Refuses an action whose type hasn't that base name.
pub(crate) fn check_action_types(parts: &Parts) -> Result<(), SchemaError>
    ensures sound { OnOk result ((uid : PlainUid) → HasAction (plain_parts parts.now) uid
        → IsActionType uid.ty) }
    ensures fault { IfErr result (λ error.
        IsValidationFault (plain_parts parts.now) (fault_of error)) }
{
    for uid in parts.actions.keys() {
        if !uid.is_action() {
            return Err(SchemaError::InvalidActionType(uid.clone()?));
        }
    }
    Ok(())
}

/// The entity type of the same base name without a namespace.
fn unqualified(alloc: Global, ty: &EntityType) -> M<EntityType>
    ensures base { IfOk result (λ plain. (type_name plain).base ≡ (type_name ty.now).base) }
    ensures path { IfOk result (λ plain. (type_name plain).path ≡ []) }
{
    let name = ty.name().as_internal();
    let plain = InternalName::new(name.basename().clone()?, Vec::new(alloc), None);
    match Name::new(plain) {
        Some(plain) => Ok(EntityType::new(plain)),
        None => unreachable!(),
    }
}

/// Refuses an entity type without a namespace beside one of the same base name in a namespace.
pub(crate) fn check_shadowed_types(alloc: Global, parts: &Parts) -> Result<(), SchemaError>
    ensures sound { OnOk result ((plain qualified : PlainName)
        → HasEntityType (plain_parts parts.now) plain
        → HasEntityType (plain_parts parts.now) qualified → ¬ ShadowsType plain qualified) }
    ensures fault { IfErr result (λ error.
        IsValidationFault (plain_parts parts.now) (fault_of error)) }
{
    for name in parts.entity_types.keys() {
        if name.name().is_unqualified() {
            continue;
        }
        let plain = unqualified(alloc, name)?;
        if parts.entity_types.contains_key(&plain) {
            let name = name.name().as_internal().clone()?;
            return Err(SchemaError::TypeShadowing(plain.into_name().into_internal(), name));
        }
    }
    Ok(())
}

/// Refuses an action whose type has no namespace beside one of the same id whose type has one. All
/// types of actions have one base name.
pub(crate) fn check_shadowed_actions(alloc: Global, parts: &Parts) -> Result<(), SchemaError>
    ensures sound { OnOk result (((uid : PlainUid) → HasAction (plain_parts parts.now) uid
        → IsActionType uid.ty)
        → (plain qualified : PlainUid) → HasAction (plain_parts parts.now) plain
        → HasAction (plain_parts parts.now) qualified → ¬ ShadowsAction plain qualified) }
    ensures fault { IfErr result (λ error.
        IsValidationFault (plain_parts parts.now) (fault_of error)) }
{
    for uid in parts.actions.keys() {
        if uid.entity_type().name().is_unqualified() {
            continue;
        }
        let ty = unqualified(alloc, uid.entity_type())?;
        let plain = EntityUID::new(ty, uid.eid().clone()?, None);
        if parts.actions.contains_key(&plain) {
            return Err(SchemaError::ActionShadowing(plain, uid.clone()?));
        }
    }
    Ok(())
}
