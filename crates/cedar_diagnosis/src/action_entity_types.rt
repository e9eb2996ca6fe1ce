//! Entity types that are declared with the base name of types of actions.

ghost use Rattle.std.proofs.Common.{refl};
ghost use Rattle.cedar_ast.proofs.Names.{entity_type_ord-Equal};
ghost use Rattle.cedar_ast.specs.Words.{type_name};
ghost use Rattle.cedar_diagnosis.specs.Ties.{name_told, tie_through};
ghost use Rattle.cedar_diagnosis.specs.Finding.{FindsActionType};
ghost use Rattle.cedar_schema_semantics.specs.Words.{action_entity_type};

use crate::finding::{FaultKind, Finds, add_key};
use crate::lent::Lent;
use cedar_ast::{EntityType, M};
use cedar_schema_semantics::SchemaError;
use std::alloc::Global;
use std::collections::BTreeSet;

/// Entity types that are declared with the base name of types of actions.
pub(crate) struct ActionEntityTypes;

impl FaultKind for ActionEntityTypes {
    type Key = EntityType;

    ghost fault = { λ key. action_entity_type (type_name key) };

    fn error(_alloc: Global, key: EntityType) -> M<SchemaError> {
        Ok(SchemaError::ActionEntityTypeDeclared(key.into_name().into_internal()))
    }

    ghost ties = { tie_through _ type_name entity_type_ord-Equal action_entity_type name_told
        (λ _. refl) };
}

impl Finds for ActionEntityTypes {
    ghost finds = { λ _ it. FindsActionType it };

    fn find(&self, alloc: Global, it: &Lent, keys: &mut BTreeSet<EntityType>) -> M<()> {
        let Some(ty) = it.entity_name(alloc)? else {
            return Ok(());
        };
        if ty.is_action() {
            return add_key::<ActionEntityTypes>(keys, ty);
        }
        Ok(())
    }
}
