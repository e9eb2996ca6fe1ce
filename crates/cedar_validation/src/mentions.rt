//! What types name.

ghost use Rattle.std.specs.Prelude.{◌≡◌, ◌⊎◌, Contains, IfErr, OnOk};
ghost use Rattle.cedar_validation.specs.Words.{ClosedAttributes, IsContextOf, IsKnownThroughout, IsTypeIn, IsTypeOfKind, IsUnknownIn, Ty, action_of, entity_type_of, fault_of, fields_of, out_of_memory, plain_parts, record_of, ty_of};

use crate::known::Known;
use cedar_ast::QuickHash;
use cedar_schema_elements::{ValidatorActionId, ValidatorEntityType};
use cedar_schema_semantics::SchemaError;
use cedar_table::Table;
use cedar_types::{Attributes, Type};

/// Refuses a type in which an entity type or an extension type stands that isn't known.
#[cycle(mentions)]
fn check_type(known: &Known, ty: &Type) -> Result<(), SchemaError>
    ensures sound { OnOk result (IsKnownThroughout known.now (ty_of ty.now)) }
    ensures fault { IfErr result (λ error. IsUnknownIn known.now (ty_of ty.now) (fault_of error)) }
{
    match ty {
        Type::Entity(kind) => known.check_kind(kind),
        Type::Set {
            element_type: Some(element),
        } => check_type(known, element),
        Type::Record { attrs, .. } => check_attributes(known, attrs),
        Type::ExtensionType { name } => known.check_extension(name),
        _ => Ok(()),
    }
}

/// Checks what the types of attributes mention.
#[cycle(mentions)]
fn check_attributes(known: &Known, attrs: &Attributes) -> Result<(), SchemaError>
    ensures sound { OnOk result (IsKnownThroughout known.now
        (record_of (fields_of attrs.now) ClosedAttributes)) }
    ensures fault { IfErr result (λ error.
        IsUnknownIn known.now (record_of (fields_of attrs.now) ClosedAttributes) (fault_of error)) }
{
    for (_name, attribute) in attrs.iter() {
        check_type(known, &attribute.attr_type)?;
    }
    Ok(())
}

/// A part of a schema in which types stand: an entity type or an action.
trait Typed {
    ghost HasType: { Self → Ty → Type 0 };

    /// Checks what its types mention.
    fn check_types(&self, known: &Known) -> Result<(), SchemaError>
        ensures sound { OnOk result ((of : Ty) → HasType self.now of
            → IsKnownThroughout known.now of) }
        ensures fault { IfErr result (λ error. (fault_of error ≡ out_of_memory)
            ⊎ ((of : Ty) × HasType self.now of × IsUnknownIn known.now of (fault_of error))) };
}

/// The types of an entity type are those of its attributes and tags.
impl Typed for ValidatorEntityType {
    ghost HasType = { λ ty. IsTypeOfKind (entity_type_of ty).kind };

    fn check_types(&self, known: &Known) -> Result<(), SchemaError> {
        check_attributes(known, self.attributes())?;
        match self.tag_type() {
            Some(tags) => check_type(known, tags),
            None => Ok(()),
        }
    }
}

/// The type of an action is that of its context.
impl Typed for ValidatorActionId {
    ghost HasType = { λ action. IsContextOf (action_of action).kind };

    fn check_types(&self, known: &Known) -> Result<(), SchemaError> {
        match self.context() {
            Some(context) => check_type(known, context),
            None => Ok(()),
        }
    }
}

/// Checks what the types in each value of a table mention.
fn check_each<K: Ord + QuickHash, V: Typed>(
    known: &Known,
    typed: &Table<K, V>,
) -> Result<(), SchemaError>
    ensures sound { OnOk result ((entry : K × V) → Contains typed.now.entries entry → (of : Ty)
        → V.HasType entry.1 of
        → IsKnownThroughout known.now of) }
    ensures fault { IfErr result (λ error. (fault_of error ≡ out_of_memory)
        ⊎ ((entry : K × V) × Contains typed.now.entries entry
        × ((of : Ty) × V.HasType entry.1 of × IsUnknownIn known.now of (fault_of error)))) }
{
    for (_name, value) in typed {
        value.check_types(known)?;
    }
    Ok(())
}

/// Refuses a schema in whose types something stands that isn't known.
pub(crate) fn check_mentions(known: &Known) -> Result<(), SchemaError>
    ensures sound { OnOk result ((of : Ty) → IsTypeIn (plain_parts known.now.parts.now) of
        → IsKnownThroughout known.now of) }
    ensures fault { IfErr result (λ error. (fault_of error ≡ out_of_memory)
        ⊎ ((of : Ty) × IsTypeIn (plain_parts known.now.parts.now) of
        × IsUnknownIn known.now of (fault_of error))) }
{
    check_each(known, &known.parts.entity_types)?;
    check_each(known, &known.parts.actions)
}
