//! Types of actions at positions of entity types.

ghost use Rattle.std.proofs.Common.{refl};
ghost use Rattle.std.specs.Prelude.{◌≡◌, ◌∷◌, [], IfOk, OnOk, map};
ghost use Rattle.cedar_ast.proofs.Names.{entity_type_ord-Equal};
ghost use Rattle.cedar_ast.specs.Words.{IsActionType, IsReserved, name_of, type_name};
ghost use Rattle.cedar_diagnosis.specs.Adding.{Adds, SomeGives};
ghost use Rattle.cedar_diagnosis.specs.Finding.{FindsUndeclaredType, IsUndeclaredType};
ghost use Rattle.cedar_diagnosis.specs.Mentioned.{reference_of};
ghost use Rattle.cedar_diagnosis.specs.Ties.{name_told, tie_through};
ghost use Rattle.cedar_name_resolution.specs.Words.{held_names};
ghost use Rattle.cedar_schema_semantics.specs.Words.{fault_of, undeclared_entity_types};

use crate::finding::{FaultKind, Finds, add_key};
use crate::lent::Lent;
use crate::mentions::WrittenReference;
use crate::positions::positions_of;
use cedar_ast::{EntityType, InternalName, M, NonEmpty};
use cedar_name_resolution::defs::{AllDefs, WrittenName};
use cedar_schema_semantics::SchemaError;
use std::alloc::Global;
use std::collections::BTreeSet;

/// Types of actions that stand where an entity type has to.
#[derive(Clone, Copy)]
pub(crate) struct UndeclaredTypes<'a> {
    /// The names that are defined.
    pub(crate) defs: &'a AllDefs,
}

impl FaultKind for UndeclaredTypes<'_> {
    type Key = EntityType;

    ghost fault = { λ key. undeclared_entity_types (type_name key ∷ []) };

    fn error(alloc: Global, key: EntityType) -> M<SchemaError>
        ensures { IfOk result (λ error. fault_of error
            ≡ undeclared_entity_types (type_name key ∷ [])) }
    {
        Ok(SchemaError::UndeclaredEntityTypes(NonEmpty {
            head: key,
            tail: Vec::new(alloc),
        }))
    }

    ghost ties = { tie_through _ type_name entity_type_ord-Equal
        (λ name. undeclared_entity_types (name ∷ [])) name_told (λ _. refl) };
}

/// Adds a name, if it is that of the type of some actions.
fn add_action_type(name: InternalName, keys: &mut BTreeSet<EntityType>) -> M<()>
    ensures { OnOk result (Adds (λ fault. IsActionType (name_of name)
        × (¬ IsReserved (name_of name)) × (undeclared_entity_types (name_of name ∷ []) ≡ fault))
        (map (λ key. undeclared_entity_types (type_name key ∷ [])) keys.old.keys)
        (map (λ key. undeclared_entity_types (type_name key ∷ [])) keys.new.keys)) }
{
    match EntityType::from_internal(name) {
        Ok(ty) => {
            if !ty.is_action() {
                return Ok(());
            }
            add_key::<UndeclaredTypes>(keys, ty)
        }
        Err(_) => Ok(()),
    }
}

impl UndeclaredTypes<'_> {
    /// Adds what a reference names, if it is the type of some actions.
    fn add(&self, it: &WrittenReference, keys: &mut BTreeSet<EntityType>) -> M<()>
        ensures { OnOk result (Adds
            (IsUndeclaredType (held_names self.now.defs.now) (reference_of it.now))
            (map (λ key. undeclared_entity_types (type_name key ∷ [])) keys.old.keys)
            (map (λ key. undeclared_entity_types (type_name key ∷ [])) keys.new.keys)) }
    {
        match it.name.resolved_within(it.kind, it.namespace, self.defs)? {
            Some(name) => add_action_type(name, keys),
            None => Ok(()),
        }
    }

    /// Adds what some references name that are types of actions.
    fn add_all(&self, references: &[WrittenReference], keys: &mut BTreeSet<EntityType>) -> M<()>
        ensures { OnOk result (Adds
            (SomeGives (IsUndeclaredType (held_names self.now.defs.now))
            (map reference_of references.now))
            (map (λ key. undeclared_entity_types (type_name key ∷ [])) keys.old.keys)
            (map (λ key. undeclared_entity_types (type_name key ∷ [])) keys.new.keys)) }
    {
        for it in references {
            self.add(it, keys)?;
        }
        Ok(())
    }
}

impl Finds for UndeclaredTypes<'_> {
    ghost finds = { λ self it. FindsUndeclaredType (held_names self.defs.now) it };

    fn find(&self, alloc: Global, it: &Lent, keys: &mut BTreeSet<EntityType>) -> M<()> {
        let positions = positions_of(alloc, it)?;
        self.add_all(&positions, keys)
    }
}
