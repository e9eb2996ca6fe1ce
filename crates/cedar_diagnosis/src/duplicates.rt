//! What is defined twice.

ghost use Rattle.std.proofs.Common.{refl};
ghost use Rattle.std.specs.Prelude.{◌≡◌, IfOk, map};
ghost use Rattle.cedar_ast.proofs.Names.{entity_type_ord-Equal, internal_name_ord-Equal};
ghost use Rattle.cedar_ast.proofs.Uids.{entity_uid_ord-Equal};
ghost use Rattle.cedar_ast.specs.Words.{name_of, type_name, uid_of};
ghost use Rattle.cedar_diagnosis.specs.Adding.{optional};
ghost use Rattle.cedar_diagnosis.specs.Lent.{declaration_of};
ghost use Rattle.cedar_diagnosis.specs.Names.{common_names_in, defined_actions_in, defined_entities_in};
ghost use Rattle.cedar_diagnosis.specs.Ties.{name_told, tie_through, uid_told};
ghost use Rattle.cedar_schema_semantics.specs.Words.{duplicate_action, duplicate_common_type, duplicate_entity_type};

use crate::finding::FaultKind;
use crate::lent::{Lent, LentBody};
use crate::repeated::Repeats;
use cedar_ast::{EntityType, EntityUID, InternalName, M};
use cedar_schema_semantics::SchemaError;
use std::alloc::Global;

/// Common types that are declared twice.
pub(crate) struct DuplicateCommonTypes;

impl FaultKind for DuplicateCommonTypes {
    type Key = InternalName;

    ghost fault = { λ key. duplicate_common_type (name_of key) };

    fn error(_alloc: Global, key: InternalName) -> M<SchemaError> {
        Ok(SchemaError::DuplicateCommonType(key))
    }

    ghost ties = { tie_through _ name_of internal_name_ord-Equal duplicate_common_type name_told
        (λ _. refl) };
}

impl Repeats for DuplicateCommonTypes {
    ghost given = { λ it. map duplicate_common_type (common_names_in it) };

    fn key(alloc: Global, it: &Lent) -> M<Option<InternalName>> {
        it.common_name(alloc)
    }
}

/// Entity types that are defined twice.
pub(crate) struct DuplicateEntityTypes;

impl FaultKind for DuplicateEntityTypes {
    type Key = EntityType;

    ghost fault = { λ key. duplicate_entity_type (type_name key) };

    fn error(_alloc: Global, key: EntityType) -> M<SchemaError> {
        Ok(SchemaError::DuplicateEntityType(key))
    }

    ghost ties = { tie_through _ type_name entity_type_ord-Equal duplicate_entity_type name_told
        (λ _. refl) };
}

impl Lent<'_> {
    /// The entity type that is defined, or None where another thing is or it is external.
    pub(crate) fn defined_entity(&self, alloc: Global) -> M<Option<EntityType>>
        ensures { IfOk result (λ ty.
            optional type_name ty ≡ defined_entities_in (declaration_of self.now)) }
    {
        match self.body {
            LentBody::EntityType { declared, .. } if !declared.external => self.entity_name(alloc),
            _ => Ok(None),
        }
    }

    /// The action that is defined, or None where another thing is or it is external.
    pub(crate) fn defined_action(&self, alloc: Global) -> M<Option<EntityUID>>
        ensures { IfOk result (λ uid.
            optional uid_of uid ≡ defined_actions_in (declaration_of self.now)) }
    {
        match self.body {
            LentBody::Action { declared, .. } if !declared.external => self.action_uid(alloc),
            _ => Ok(None),
        }
    }
}

impl Repeats for DuplicateEntityTypes {
    ghost given = { λ it. map duplicate_entity_type (defined_entities_in it) };

    fn key(alloc: Global, it: &Lent) -> M<Option<EntityType>> {
        it.defined_entity(alloc)
    }
}

/// Actions that are defined twice.
pub(crate) struct DuplicateActions;

impl FaultKind for DuplicateActions {
    type Key = EntityUID;

    ghost fault = { λ key. duplicate_action (uid_of key) };

    fn error(_alloc: Global, key: EntityUID) -> M<SchemaError> {
        Ok(SchemaError::DuplicateAction(key))
    }

    ghost ties = { tie_through _ uid_of entity_uid_ord-Equal duplicate_action uid_told
        (λ _. refl) };
}

impl Repeats for DuplicateActions {
    ghost given = { λ it. map duplicate_action (defined_actions_in it) };

    fn key(alloc: Global, it: &Lent) -> M<Option<EntityUID>> {
        it.defined_action(alloc)
    }
}
