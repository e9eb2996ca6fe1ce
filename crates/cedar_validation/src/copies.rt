//! Copies of entity types and of actions.

ghost use Rattle.std.specs.Prelude.{IfOk};
ghost use Rattle.cedar_validation.specs.Words.{HoldsPairwise, IsActionCopied, IsTypeCopied};

use crate::parts::{Actions, Types};
use cedar_ast::{EntityType, EntityUID, M};
use cedar_schema_elements::{ValidatorActionId, ValidatorEntityType};
use cedar_table::{Table, copied_table};

/// Equal entity types with the same locations, each under an equal name. Out of memory is the
/// only refusal.
pub fn copied_types(types: &Table<EntityType, ValidatorEntityType>) -> M<Types>
    ensures { IfOk result (λ copies. HoldsPairwise IsTypeCopied types.now.entries copies.entries) }
{
    copied_table(types, EntityType::clone, ValidatorEntityType::clone)
}

/// Equal actions with the same locations, each under an equal uid. Out of memory is the only
/// refusal.
pub fn copied_actions(actions: &Table<EntityUID, ValidatorActionId>) -> M<Actions>
    ensures { IfOk result (λ copies.
        HoldsPairwise IsActionCopied actions.now.entries copies.entries) }
{
    copied_table(actions, EntityUID::clone, ValidatorActionId::clone)
}
