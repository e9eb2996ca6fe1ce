//! The test of whether references fit the places where they stand.

ghost use Rattle.std.specs.Prelude.{◌≡◌, ◌↔◌, IsTrue};
ghost use Rattle.cedar_schema_ast.specs.Words.{ReferencesFit, conditional_record, conditional_variant, positional_record, positional_variant, reference_type_of};

use crate::json_schema::conditional_name::ConditionalName;
use crate::json_schema::reference_type::ReferenceType;
use crate::json_schema::type_of::{RecordType, Type, TypeVariant};

/// Whether a reference is of the kind that its position permits.
fn reference_fits(name: &ConditionalName, kind: ReferenceType) -> bool
    ensures { IsTrue result ↔ (reference_type_of name.now ≡ kind) }
{
    *name.reference_type() == kind
}

/// Whether each reference in a type fits its position.
#[cycle(references_fit)]
fn type_references_fit(ty: &Type<ConditionalName>) -> bool
    ensures { IsTrue result ↔ ReferencesFit ty.now }
{
    match ty {
        Type::Plain { ty, .. } => variant_references_fit(ty),
        Type::CommonTypeRef { type_name, .. } => reference_fits(type_name, ReferenceType::Common),
    }
}

/// Whether the references in a type variant fit their positions.
#[cycle(references_fit)]
fn variant_references_fit(ty: &TypeVariant<ConditionalName>) -> bool
    ensures { IsTrue result ↔ (positional_variant ty.now ≡ conditional_variant ty.now) }
{
    match ty {
        TypeVariant::String => true,
        TypeVariant::Long => true,
        TypeVariant::Boolean => true,
        TypeVariant::Set { element } => type_references_fit(element),
        TypeVariant::Record(record_type) => record_references_fit(record_type),
        TypeVariant::Entity { name } => reference_fits(name, ReferenceType::Entity),
        TypeVariant::EntityOrCommon { type_name } => {
            reference_fits(type_name, ReferenceType::CommonOrEntity)
        }
        TypeVariant::Extension { .. } => true,
    }
}

/// Whether the references in a record type fit their positions.
#[cycle(references_fit)]
fn record_references_fit(record_type: &RecordType<ConditionalName>) -> bool
    ensures { IsTrue result ↔ (positional_record record_type.now
        ≡ conditional_record record_type.now) }
{
    for (_name, attribute) in &record_type.attributes {
        if !type_references_fit(&attribute.ty) {
            return false;
        }
    }
    true
}

impl Type<ConditionalName> {
    /// Whether each reference fits its position: a reference to a common type may name common types
    /// alone, one to an entity type entity types alone, and one to either may name both.
    pub fn references_fit(&self) -> bool
        ensures { IsTrue result ↔ ReferencesFit self.now }
    {
        type_references_fit(self)
    }
}
