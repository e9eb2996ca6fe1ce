//! Names that are written in full, and what they would name.

ghost use Rattle.std.specs.Prelude.{◌≡◌, ◌↔◌, Contains, IfErr, IfOk, IsTrue, OnOk, map};
ghost use Rattle.cedar_schema_writer.specs.Words.{NamesNoOther, NamesNoOtherAction, PlainName, PlainUid, Refuses, SchemaAction, SchemaEntityType, known_names, known_schema, plain_action_entry, plain_namespace, raw_name, type_name, uid_of, written_uid};

use crate::names::within;
use crate::write_back_fault::WriteBackFault;
use cedar_ast::{Eid, EntityType, EntityUID, M, Name};
use cedar_schema_ast::json_schema::{ActionEntityUID, RawName};
use cedar_schema_elements::{RequestTypes, ValidatorActionId, ValidatorEntityType};
use cedar_table::Table;
use std::alloc::Global;
use std::collections::BTreeSet;

/// What a schema defines, once it is converted back.
#[derive(Clone, Copy)]
pub(crate) struct Known<'a> {
    /// Where what is written is made.
    pub(crate) alloc: Global,
    /// The entity types, each under its name.
    pub(crate) entity_types: &'a Table<EntityType, ValidatorEntityType>,
    /// The actions, each under its uid.
    pub(crate) actions: &'a Table<EntityUID, ValidatorActionId>,
    /// The types of the actions.
    pub(crate) action_types: &'a BTreeSet<EntityType>,
}

/// The types of some actions.
pub(crate) fn action_types(
    alloc: Global,
    actions: &Table<EntityUID, ValidatorActionId>,
) -> M<BTreeSet<EntityType>>
    ensures { IfOk result (λ types. (name : PlainName) → Contains (map type_name types.keys) name
        ↔ Contains (map (λ (it : PlainUid × SchemaAction). it.0.ty)
        (map plain_action_entry actions.now.entries)) name) }
{
    let mut types = BTreeSet::new(alloc);
    for uid in actions.keys() {
        types.insert(uid.entity_type().clone()?)?;
    }
    Ok(types)
}

impl<'a> Known<'a> {
    /// Whether there is an entity type of the name.
    pub(crate) fn has_entity_type(&self, name: &EntityType) -> bool
        ensures { IsTrue result ↔ Contains (map (λ (it : PlainName × SchemaEntityType). it.0)
            (known_schema self.now).entity_types) (type_name name.now) }
    {
        self.entity_types.contains_key(name)
    }

    /// Whether there is an action of the uid.
    pub(crate) fn has_action(&self, uid: &EntityUID) -> bool
        ensures { IsTrue result ↔ Contains (known_names self.now).actions (uid_of uid.now) }
    {
        self.actions.contains_key(uid)
    }

    /// Whether there is an entity type of the name, or an action of such a type.
    fn knows(&self, name: &EntityType) -> bool
        ensures { IsTrue result ↔ Contains (known_names self.now).entities (type_name name.now) }
    {
        self.has_entity_type(name) || self.action_types.contains(name)
    }

    /// Whether the name, written in full in the namespace, names no other entity type there.
    fn names_no_other(&self, namespace: &Option<Name>, name: &EntityType) -> M<bool>
        ensures { IfOk result (λ answer. IsTrue answer
            ↔ NamesNoOther (known_names self.now) (plain_namespace namespace.now)
            (type_name name.now)) }
    {
        match namespace {
            Some(namespace) if name.name().is_unqualified() => {
                let other = within(self.alloc, namespace, name.name())?;
                Ok(!self.knows(&other))
            }
            _ => Ok(true),
        }
    }

    /// Whether the uid, written in full in the namespace, names no other action there.
    fn names_no_other_action(&self, namespace: &Option<Name>, uid: &EntityUID) -> M<bool>
        ensures { IfOk result (λ answer. IsTrue answer
            ↔ NamesNoOtherAction (known_names self.now) (plain_namespace namespace.now)
            (uid_of uid.now)) }
    {
        let name = uid.entity_type().name();
        match namespace {
            Some(namespace) if name.is_unqualified() => {
                let ty = within(self.alloc, namespace, name)?;
                let other = EntityUID::new(ty, uid.eid().clone()?, None);
                Ok(!self.has_action(&other))
            }
            _ => Ok(true),
        }
    }

    /// The name of an entity type in full, as it is written in the namespace.
    pub(crate) fn write_name(
        &self,
        namespace: &Option<Name>,
        name: &EntityType,
    ) -> Result<RawName, WriteBackFault>
        ensures name { IfOk result (λ written. raw_name written ≡ type_name name.now) }
        ensures no_other { OnOk result
            (NamesNoOther (known_names self.now) (plain_namespace namespace.now)
            (type_name name.now)) }
        ensures refusal { IfErr result (Refuses
            (¬ NamesNoOther (known_names self.now) (plain_namespace namespace.now)
            (type_name name.now))) }
    {
        if !self.names_no_other(namespace, name)? {
            return Err(WriteBackFault::Unwritable);
        }
        Ok(RawName::new(name.name().as_internal().clone()?))
    }

    /// The uid of an action in full, as it is written in the namespace.
    pub(crate) fn write_uid(
        &self,
        namespace: &Option<Name>,
        uid: &EntityUID,
    ) -> Result<ActionEntityUID<RawName>, WriteBackFault>
        ensures uid { IfOk result (λ written. written_uid written ≡ uid_of uid.now) }
        ensures no_other { OnOk result
            (NamesNoOtherAction (known_names self.now) (plain_namespace namespace.now)
            (uid_of uid.now)) }
        ensures refusal { IfErr result (Refuses
            (¬ NamesNoOtherAction (known_names self.now) (plain_namespace namespace.now)
            (uid_of uid.now))) }
    {
        if !self.names_no_other_action(namespace, uid)? {
            return Err(WriteBackFault::Unwritable);
        }
        let name = uid.entity_type().name().as_internal().clone()?;
        let Eid(id) = uid.eid().clone()?;
        Ok(ActionEntityUID {
            id,
            ty: Some(RawName::new(name)),
            loc: None,
        })
    }

    /// The names of some entity types in full, as they are written in the namespace.
    pub(crate) fn write_names(
        &self,
        namespace: &Option<Name>,
        names: RequestTypes<'_>,
    ) -> Result<Vec<RawName>, WriteBackFault>
        ensures names { IfOk result (λ written.
            map raw_name written.items ≡ map type_name names.entry) }
        ensures no_other { OnOk result
            ((name : PlainName) → Contains (map type_name names.entry) name
            → NamesNoOther (known_names self.now) (plain_namespace namespace.now) name) }
        ensures refusal { IfErr result
            (Refuses ((name : PlainName) × Contains (map type_name names.entry) name
            × ¬ NamesNoOther (known_names self.now) (plain_namespace namespace.now) name)) }
    {
        let mut written = Vec::new(self.alloc);
        for name in names {
            written.push(self.write_name(namespace, name)?)?;
        }
        Ok(written)
    }
}
