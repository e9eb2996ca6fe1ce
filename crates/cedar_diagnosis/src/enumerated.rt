//! Enumerated entity types, and those that are declared with parents.

ghost use Rattle.std.specs.Prelude.{◌≡◌, ◌↔◌, [], IfOk, IsTrue, OnOk, map};
ghost use Rattle.cedar_ast.specs.Words.{IsReserved, name_of, type_name};
ghost use Rattle.cedar_diagnosis.specs.Adding.{Adds, SomeGives};
ghost use Rattle.cedar_diagnosis.specs.Finding.{FindsEnumeratedBelow, IsBelow, IsEnumeratedIn, IsEnumeratedName, IsExternalIn};
ghost use Rattle.cedar_diagnosis.specs.KeyTies.{below_told, enumerated_below_tie};
ghost use Rattle.cedar_diagnosis.specs.Lent.{declaration_of, declarations_of};
ghost use Rattle.cedar_diagnosis.specs.Mentioned.{reference_of};
ghost use Rattle.cedar_name_resolution.specs.Words.{held_names};
ghost use Rattle.cedar_schema_semantics.specs.Words.{enumerated_below, fault_of};

use crate::finding::{FaultKind, Finds, add_key};
use crate::lent::{Lent, LentBody};
use crate::mentions::WrittenReference;
use crate::positions::positions_of;
use crate::type_pair::TypePair;
use cedar_ast::{EntityType, InternalName, M};
use cedar_name_resolution::defs::{AllDefs, WrittenName};
use cedar_schema_ast::json_schema::EntityTypeKind;
use cedar_schema_semantics::SchemaError;
use std::alloc::Global;
use std::collections::BTreeSet;

impl Lent<'_> {
    /// Whether an external entity type is declared.
    fn is_external(&self) -> bool
        ensures { IsTrue result ↔ IsExternalIn (declaration_of self.now).body }
    {
        match self.body {
            LentBody::EntityType { declared, .. } => declared.external,
            _ => false,
        }
    }

    /// Whether an enumerated entity type is declared.
    fn is_enumerated(&self) -> bool
        ensures { IsTrue result ↔ IsEnumeratedIn (declaration_of self.now).body }
    {
        match self.body {
            LentBody::EntityType { declared, .. } => {
                !declared.external && matches!(declared.kind, EntityTypeKind::Enum { .. })
            }
            _ => false,
        }
    }
}

/// Adds the entity type that is declared, if it is enumerated.
fn add_enumerated(alloc: Global, it: &Lent, types: &mut BTreeSet<EntityType>) -> M<()>
    ensures { OnOk result (Adds (IsEnumeratedName (declaration_of it.now))
        (map type_name types.old.keys) (map type_name types.new.keys)) }
{
    if !it.is_enumerated() {
        return Ok(());
    }
    if let Some(ty) = it.entity_name(alloc)? {
        let _is_new = types.insert(ty)?;
    }
    Ok(())
}

/// The entity types that are declared as enumerated ones.
pub(crate) fn enumerated_types(alloc: Global, bag: &[Lent]) -> M<BTreeSet<EntityType>>
    ensures { IfOk result (λ types. Adds (SomeGives IsEnumeratedName (declarations_of bag.now))
        [] (map type_name types.keys)) }
{
    let mut types = BTreeSet::new(alloc);
    for it in bag {
        add_enumerated(alloc, it, &mut types)?;
    }
    Ok(types)
}

/// Enumerated entity types with parents, which external declarations give to them.
#[derive(Clone, Copy)]
pub(crate) struct EnumeratedBelow<'a> {
    /// The names that are defined.
    pub(crate) defs: &'a AllDefs,
    /// The enumerated entity types.
    pub(crate) enumerated: &'a BTreeSet<EntityType>,
}

impl FaultKind for EnumeratedBelow<'_> {
    type Key = TypePair;

    ghost fault = { below_told };

    fn error(_alloc: Global, key: TypePair) -> M<SchemaError>
        ensures { IfOk result (λ error. fault_of error ≡ below_told key) }
    {
        let TypePair { lower, upper } = key;
        Ok(SchemaError::EnumEntityInHierarchy(lower, upper))
    }

    ghost ties = { enumerated_below_tie };
}

/// Adds what has a parent of the name, unless the name is reserved, which no parent's is.
fn add_upper(lower: &EntityType, name: InternalName, keys: &mut BTreeSet<TypePair>) -> M<()>
    ensures { OnOk result (Adds (λ fault. (¬ IsReserved (name_of name))
        × (enumerated_below (type_name lower.now) (name_of name) ≡ fault))
        (map below_told keys.old.keys) (map below_told keys.new.keys)) }
{
    let lower = lower.clone()?;
    match EntityType::from_internal(name) {
        Ok(upper) => add_key::<EnumeratedBelow>(keys, TypePair { lower, upper }),
        Err(_) => Ok(()),
    }
}

impl EnumeratedBelow<'_> {
    /// Adds the parent that a reference names, if it names one.
    fn add(&self, lower: &EntityType, it: &WrittenReference, keys: &mut BTreeSet<TypePair>) -> M<()>
        ensures { OnOk result (Adds
            (IsBelow (held_names self.now.defs.now) (type_name lower.now) (reference_of it.now))
            (map below_told keys.old.keys) (map below_told keys.new.keys)) }
    {
        match it.name.resolved_within(it.kind, it.namespace, self.defs)? {
            Some(name) => add_upper(lower, name, keys),
            None => Ok(()),
        }
    }

    /// Adds the parents that some references name.
    fn add_all(
        &self,
        lower: &EntityType,
        references: &[WrittenReference],
        keys: &mut BTreeSet<TypePair>,
    ) -> M<()>
        ensures { OnOk result (Adds
            (SomeGives (IsBelow (held_names self.now.defs.now) (type_name lower.now))
            (map reference_of references.now))
            (map below_told keys.old.keys) (map below_told keys.new.keys)) }
    {
        for it in references {
            self.add(lower, it, keys)?;
        }
        Ok(())
    }
}

impl Finds for EnumeratedBelow<'_> {
    ghost finds = { λ self it.
        FindsEnumeratedBelow (held_names self.defs.now) (map type_name self.enumerated.now.keys)
        it };

    fn find(&self, alloc: Global, it: &Lent, keys: &mut BTreeSet<TypePair>) -> M<()> {
        if !it.is_external() {
            return Ok(());
        }
        let Some(lower) = it.entity_name(alloc)? else {
            return Ok(());
        };
        if !self.enumerated.contains(&lower) {
            return Ok(());
        }
        let positions = positions_of(alloc, it)?;
        self.add_all(&lower, &positions, keys)
    }
}
