//! Types and actions that would shadow others (Cedar's RFC 70).

ghost use Rattle.std.proofs.Common.{refl};
ghost use Rattle.std.specs.Prelude.{◌≡◌, ◌↔◌, Contains, IfOk, IsTrue};
ghost use Rattle.cedar_ast.proofs.Names.{internal_name_ord-Equal};
ghost use Rattle.cedar_ast.proofs.Uids.{entity_uid_ord-Equal};
ghost use Rattle.cedar_ast.specs.Words.{name_of, uid_of};
ghost use Rattle.cedar_diagnosis.specs.Ties.{name_told, tie_through, uid_told};
ghost use Rattle.cedar_diagnosis.specs.Adding.{optional};
ghost use Rattle.cedar_diagnosis.specs.Finding.{FindsShadowedAction, FindsShadowedType, plain_uid};
ghost use Rattle.cedar_diagnosis.specs.Lent.{declaration_of};
ghost use Rattle.cedar_diagnosis.specs.Names.{type_names_in};
ghost use Rattle.cedar_name_resolution.specs.Words.{held_names, type_names};
ghost use Rattle.cedar_schema_semantics.specs.Words.{action_shadowing, alias_name, fault_of, type_shadowing};

use crate::finding::{FaultKind, Finds, add_key};
use crate::lent::Lent;
use cedar_ast::{EntityType, EntityUID, InternalName, M, identifier};
use cedar_name_resolution::defs::AllDefs;
use cedar_schema_semantics::SchemaError;
use std::alloc::Global;
use std::collections::BTreeSet;

/// Types that are declared and whose base names those of others in the empty namespace are.
#[derive(Clone, Copy)]
pub(crate) struct ShadowedTypes<'a> {
    /// The names that are declared.
    pub(crate) declared: &'a AllDefs,
}

/// The name of the same base name in the empty namespace.
pub(crate) fn plain_type(alloc: Global, name: &InternalName) -> M<InternalName>
    ensures { IfOk result (λ plain. name_of plain ≡ alias_name (name_of name.now).base) }
{
    Ok(InternalName::new(name.basename().clone()?, Vec::new(alloc), None))
}

/// The uid of the action of the same id in the empty namespace.
fn plain_action(alloc: Global, uid: &EntityUID) -> M<EntityUID>
    ensures { IfOk result (λ plain. uid_of plain ≡ plain_uid (uid_of uid.now).eid) }
{
    let name = InternalName::new(identifier(alloc, "Action")?, Vec::new(alloc), None);
    match EntityType::from_internal(name) {
        Ok(ty) => Ok(EntityUID::new(ty, uid.eid().clone()?, None)),
        Err(_) => unreachable!(),
    }
}

/// Whether a type of the name is declared, common or entity.
pub(crate) fn is_type(declared: &AllDefs, name: &InternalName) -> bool
    ensures { IsTrue result ↔ Contains (type_names (held_names declared.now)) (name_of name.now) }
{
    declared.is_defined_as_common(name) || declared.is_defined_as_entity(name)
}

impl FaultKind for ShadowedTypes<'_> {
    type Key = InternalName;

    ghost fault = { λ key. type_shadowing (alias_name (name_of key).base) (name_of key) };

    fn error(alloc: Global, key: InternalName) -> M<SchemaError>
        ensures { IfOk result (λ error. fault_of error
            ≡ type_shadowing (alias_name (name_of key).base) (name_of key)) }
    {
        Ok(SchemaError::TypeShadowing(plain_type(alloc, &key)?, key))
    }

    ghost ties = { tie_through _ name_of internal_name_ord-Equal
        (λ name. type_shadowing (alias_name name.base) name) name_told (λ _. refl) };
}

impl Lent<'_> {
    /// The full name of the type that is declared, common or entity, or None where an action is.
    fn declared_type(&self, alloc: Global) -> M<Option<InternalName>>
        ensures { IfOk result (λ name.
            optional name_of name ≡ type_names_in (declaration_of self.now)) }
    {
        if let Some(name) = self.common_name(alloc)? {
            return Ok(Some(name));
        }
        match self.entity_name(alloc)? {
            Some(ty) => Ok(Some(ty.into_name().into_internal())),
            None => Ok(None),
        }
    }
}

impl Finds for ShadowedTypes<'_> {
    ghost finds = { λ self it. FindsShadowedType (type_names (held_names self.declared.now)) it };

    fn find(&self, alloc: Global, it: &Lent, keys: &mut BTreeSet<InternalName>) -> M<()> {
        let Some(name) = it.declared_type(alloc)? else {
            return Ok(());
        };
        if name.is_unqualified() {
            return Ok(());
        }
        if name.is_reserved() {
            return Ok(());
        }
        let plain = plain_type(alloc, &name)?;
        if is_type(self.declared, &plain) {
            return add_key::<ShadowedTypes>(keys, name);
        }
        Ok(())
    }
}

/// Actions that are declared and whose ids those of others in the empty namespace are.
#[derive(Clone, Copy)]
pub(crate) struct ShadowedActions<'a> {
    /// The names that are declared.
    pub(crate) declared: &'a AllDefs,
}

impl FaultKind for ShadowedActions<'_> {
    type Key = EntityUID;

    ghost fault = { λ key. action_shadowing (plain_uid (uid_of key).eid) (uid_of key) };

    fn error(alloc: Global, key: EntityUID) -> M<SchemaError>
        ensures { IfOk result (λ error. fault_of error
            ≡ action_shadowing (plain_uid (uid_of key).eid) (uid_of key)) }
    {
        Ok(SchemaError::ActionShadowing(plain_action(alloc, &key)?, key))
    }

    ghost ties = { tie_through _ uid_of entity_uid_ord-Equal
        (λ uid. action_shadowing (plain_uid uid.eid) uid) uid_told (λ _. refl) };
}

impl Finds for ShadowedActions<'_> {
    ghost finds = { λ self it. FindsShadowedAction (held_names self.declared.now).actions it };

    fn find(&self, alloc: Global, it: &Lent, keys: &mut BTreeSet<EntityUID>) -> M<()> {
        let Some(uid) = it.action_uid(alloc)? else {
            return Ok(());
        };
        if uid.entity_type().name().is_unqualified() {
            return Ok(());
        }
        let plain = plain_action(alloc, &uid)?;
        if self.declared.is_defined_as_action(&plain) {
            return add_key::<ShadowedActions>(keys, uid);
        }
        Ok(())
    }
}
