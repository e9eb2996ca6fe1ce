//! Entity types and extension types that are known.

ghost use Rattle.std.specs.Prelude.{◌≡◌, ◌⊎◌, ◌↔◌, [], ◌∷◌, Contains, IfErr, IfOk, IsTrue, OnOk, map};
ghost use Rattle.cedar_validation.specs.Words.{HasAction, IsKnownThroughout, IsUnknownIn, Knows, PlainName, PlainUid, extension_types, fault_of, kind_ty, lub_names, out_of_memory, plain_name, plain_parts, type_name, undeclared_entity_types, unknown_extension_type};

use crate::parts::Parts;
use cedar_ast::{EntityType, Extensions, M, Name, NonEmpty};
use cedar_schema_semantics::SchemaError;
use cedar_types::{EntityKind, EntityLUB};
use std::alloc::Global;
use std::collections::BTreeSet;

/// What types may name: entity types, types of actions, and extension types.
#[derive(Clone, Copy)]
pub(crate) struct Known<'a> {
    /// Where refusals are made.
    pub(crate) alloc: Global,
    /// The schema.
    pub(crate) parts: &'a Parts,
    /// The types of its actions.
    pub(crate) action_types: &'a BTreeSet<EntityType>,
    /// The extension types that were handed in.
    pub(crate) extensions: &'a Extensions,
}

/// The types of the actions.
pub(crate) fn action_types(alloc: Global, parts: &Parts) -> M<BTreeSet<EntityType>>
    ensures { IfOk result (λ types. (name : PlainName) → Contains (map type_name types.keys) name
        ↔ ((uid : PlainUid) × HasAction (plain_parts parts.now) uid × (uid.ty ≡ name))) }
{
    let mut types = BTreeSet::new(alloc);
    for uid in parts.actions.keys() {
        types.insert(uid.entity_type().clone()?)?;
    }
    Ok(types)
}

/// The refusal of an entity type that isn't declared.
pub(crate) fn undeclared(alloc: Global, name: &EntityType) -> M<SchemaError>
    ensures { IfOk result (λ error.
        fault_of error ≡ undeclared_entity_types (type_name name.now ∷ [])) }
{
    Ok(SchemaError::UndeclaredEntityTypes(NonEmpty {
        head: name.clone()?,
        tail: Vec::new(alloc),
    }))
}

impl<'a> Known<'a> {
    /// Whether the entity type is one of the schema or the type of an action.
    fn knows(&self, name: &EntityType) -> bool
        ensures { IsTrue result ↔ Knows self.now (type_name name.now) }
    {
        self.parts.entity_types.contains_key(name) || self.action_types.contains(name)
    }

    /// Refuses a union with an entity type that isn't known.
    fn check_union(&self, union: &EntityLUB) -> Result<(), SchemaError>
        ensures sound { OnOk result ((name : PlainName) → Contains (lub_names union.now) name
            → Knows self.now name) }
        ensures fault { IfErr result (λ error. (fault_of error ≡ out_of_memory)
            ⊎ ((name : PlainName) × (fault_of error ≡ undeclared_entity_types (name ∷ []))
            × Contains (lub_names union.now) name
            × ¬ Knows self.now name)) }
    {
        for name in union.iter() {
            if !self.knows(name) {
                return Err(undeclared(self.alloc, name)?);
            }
        }
        Ok(())
    }

    /// Refuses a kind of entities with such a union.
    pub(crate) fn check_kind(&self, kind: &EntityKind) -> Result<(), SchemaError>
        ensures sound { OnOk result (IsKnownThroughout self.now (kind_ty kind.now)) }
        ensures fault { IfErr result (λ error.
            IsUnknownIn self.now (kind_ty kind.now) (fault_of error)) }
    {
        match kind {
            EntityKind::AnyEntity => Ok(()),
            EntityKind::Entity(union) => self.check_union(union),
        }
    }

    /// Refuses an extension type that wasn't handed in.
    pub(crate) fn check_extension(&self, name: &Name) -> Result<(), SchemaError>
        ensures sound { OnOk result (Contains (extension_types self.now.extensions.now)
            (plain_name name.now)) }
        ensures fault { IfErr result (λ error. (fault_of error ≡ out_of_memory)
            ⊎ ((fault_of error ≡ unknown_extension_type (plain_name name.now))
            × ¬ Contains (extension_types self.now.extensions.now) (plain_name name.now))) }
    {
        if self.extensions.has_type(name) {
            return Ok(());
        }
        Err(SchemaError::UnknownExtensionType(name.clone()?))
    }
}
