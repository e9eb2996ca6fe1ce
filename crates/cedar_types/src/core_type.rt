//! Core types of types: those that extension functions are typed by.

ghost use Rattle.std.specs.Prelude.{◌≡◌, ◌⊎◌, OnOk, IfOk, IfErr, Some, None, string_bytes};
ghost use Rattle.std.specs.BTreeMap.{insert_entry};
ghost use Rattle.std.specs.String.{string_cmp};
ghost use Rattle.std.specs.declared.alloc.Global.{Global};
ghost use Rattle.std.specs.declared.string.String.{String};
ghost use Rattle.cedar_types.specs.Words.{IsCoreFault, IsFieldsFault, core_fields, core_fields_of, core_of, core_set, core_ty_of, fields_of, kind_ty, ty_of};
ghost use Rattle.cedar_type_rules.specs.declared.core_type_fault.CoreTypeFault.TheVariants as fault;

use crate::attributes::Attributes;
use crate::entity_kind::EntityKind;
use crate::types::Type;
use cedar_ast::{CoreAttributeType, CoreSchemaType, M};
use cedar_type_rules::{CoreTypeFault, OpenTag};
use std::alloc::Global;
use std::collections::BTreeMap;

/// Puts an attribute under a copy of a name.
fn put_named(
    attrs: &mut BTreeMap<String, CoreAttributeType>,
    name: &String,
    attribute: CoreAttributeType,
) -> M<()>
    ensures { OnOk result ((key : String Global) × (string_bytes key ≡ string_bytes name.now)
        × (attrs.new.entries ≡ insert_entry string_cmp attrs.old.entries key attribute)) }
{
    let _old = attrs.insert(name.clone()?, attribute)?;
    Ok(())
}

/// The core type of sets whose elements have a core type.
fn core_set(alloc: Global, element: CoreSchemaType) -> M<CoreSchemaType>
    ensures { IfOk result (λ core. core_ty_of core ≡ core_set (core_ty_of element)) }
{
    Ok(CoreSchemaType::Set {
        element_ty: Box::new(alloc, element)?,
    })
}

/// The core type of the entities of a kind.
fn core_entity(kind: &EntityKind) -> Result<CoreSchemaType, CoreTypeFault>
    ensures core { IfOk result (λ core. core_of (kind_ty kind.now) ≡ Some (core_ty_of core)) }
    ensures fault { IfErr result (IsCoreFault (kind_ty kind.now)) }
{
    let EntityKind::Entity(lub) = kind else {
        return Err(CoreTypeFault::AnyEntityType);
    };
    match lub.get_single_entity() {
        Some(ty) => Ok(CoreSchemaType::Entity { ty: ty.clone()? }),
        None => Err(CoreTypeFault::UnionType),
    }
}

/// The attributes with the core types of their types.
#[cycle(core)]
fn core_attributes(
    alloc: Global,
    attrs: &Attributes,
) -> Result<BTreeMap<String, CoreAttributeType>, CoreTypeFault>
    ensures core { IfOk result (λ core.
        core_fields (fields_of attrs.now) ≡ Some (core_fields_of core)) }
    ensures fault { IfErr result (IsFieldsFault (fields_of attrs.now)) }
{
    let mut core = BTreeMap::new(alloc);
    for (name, attribute) in attrs.attrs.as_slice() {
        let attr_type = core_type(alloc, &attribute.attr_type)?;
        let required = attribute.is_required;
        put_named(
            &mut core,
            name,
            CoreAttributeType {
                attr_type,
                required,
            },
        )?;
    }
    Ok(core)
}

/// The core type of a type.
#[cycle(core)]
fn core_type(alloc: Global, ty: &Type) -> Result<CoreSchemaType, CoreTypeFault>
    ensures core { IfOk result (λ core. core_of (ty_of ty.now) ≡ Some (core_ty_of core)) }
    ensures fault { IfErr result (IsCoreFault (ty_of ty.now)) }
{
    match ty {
        Type::Never => Err(CoreTypeFault::NeverType),
        Type::Bool(_) => Ok(CoreSchemaType::Bool),
        Type::Long => Ok(CoreSchemaType::Long),
        Type::String => Ok(CoreSchemaType::String),
        Type::Entity(kind) => core_entity(kind),
        Type::Set { element_type: None } => Ok(CoreSchemaType::EmptySet),
        Type::Set {
            element_type: Some(element),
        } => Ok(core_set(alloc, core_type(alloc, element)?)?),
        Type::Record {
            attrs,
            open_attributes,
        } => Ok(CoreSchemaType::Record {
            attrs: core_attributes(alloc, attrs)?,
            open_attrs: *open_attributes == OpenTag::OpenAttributes,
        }),
        Type::ExtensionType { name } => Ok(CoreSchemaType::Extension {
            name: name.clone()?,
        }),
    }
}

/// The core type of a type: each case by itself, with the one of all truth values for any of them,
/// and that of the empty set for the any-set.
///
/// A type in which `Never`, any entity, or a union of two entity types or more stands has none, and
/// the fault names one that stands in it. Or the answer is that memory ran out.
pub fn core_type_of(alloc: Global, ty: Type) -> Result<CoreSchemaType, CoreTypeFault>
    ensures core { IfOk result (λ core. core_of (ty_of ty) ≡ Some (core_ty_of core)) }
    ensures fault { IfErr result (IsCoreFault (ty_of ty)) }
    ensures lacks { IfErr result (λ given. (given ≡ fault.Memory) ⊎ (core_of (ty_of ty) ≡ None)) }
{
    core_type(alloc, &ty)
}
