//! What is refused of the hierarchy of entity types, whose descendants are closed.

ghost use Rattle.std.specs.Prelude.{◌≡◌, ◌⊎◌, IfErr, OnOk};
ghost use Rattle.cedar_validation.specs.Words.{IsBelowFault, IsBelowSound, IsKindFault, IsKindSound, IsPairSound, IsValidationFault, ListsDescendant, PlainName, entity_type_of, fault_of, out_of_memory, plain_parts, type_name};

use crate::parts::Parts;
use crate::request_types::check_declared;
use cedar_ast::EntityType;
use cedar_schema_elements::ValidatorEntityType;
use cedar_schema_semantics::SchemaError;
use std::alloc::Global;

/// Refuses an enumerated entity type below another, and an external one below an enumerated one.
fn check_kinds(
    lower: &EntityType,
    below: &ValidatorEntityType,
    upper: &EntityType,
    above: &ValidatorEntityType,
) -> Result<(), SchemaError>
    ensures sound { OnOk result (IsKindSound (entity_type_of below.now).kind
        (entity_type_of above.now).kind) }
    ensures fault { IfErr result (λ error. (fault_of error ≡ out_of_memory)
        ⊎ IsKindFault (type_name lower.now) (entity_type_of below.now).kind (type_name upper.now)
        (entity_type_of above.now).kind
        (fault_of error)) }
{
    if below.is_enumerated() {
        return Err(SchemaError::EnumEntityInHierarchy(lower.clone()?, upper.clone()?));
    }
    if above.is_enumerated() && below.is_external() {
        return Err(SchemaError::ExternalWithEnumAncestor(lower.clone()?, upper.clone()?));
    }
    Ok(())
}

/// Checks each descendant of an entity type.
fn check_below(
    parts: &Parts,
    upper: &EntityType,
    above: &ValidatorEntityType,
) -> Result<(), SchemaError>
    ensures sound { OnOk result (IsBelowSound parts.now above.now) }
    ensures fault { IfErr result (λ error. (fault_of error ≡ out_of_memory)
        ⊎ IsBelowFault parts.now (type_name upper.now) above.now (fault_of error)) }
{
    for lower in &above.descendants {
        match parts.entity_types.get(lower) {
            Some(below) => check_kinds(lower, below, upper, above)?,
            None => {}
        }
    }
    Ok(())
}

/// Checks the descendants of each entity type, which have to be entity types of the schema.
pub(crate) fn check_hierarchy(alloc: Global, parts: &Parts) -> Result<(), SchemaError>
    ensures sound { OnOk result ((lower upper : PlainName)
        → ListsDescendant (plain_parts parts.now) lower upper
        → IsPairSound (plain_parts parts.now) lower upper) }
    ensures fault { IfErr result (λ error.
        IsValidationFault (plain_parts parts.now) (fault_of error)) }
{
    for (upper, above) in &parts.entity_types {
        check_declared(alloc, parts, above.descendants.iter())?;
        check_below(parts, upper, above)?;
    }
    Ok(())
}
