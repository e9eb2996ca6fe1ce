//! How deep types are nested.

ghost use Rattle.std.specs.Prelude.{◌↔◌, ◌≤◌, IsTrue};
ghost use Rattle.cedar_schema_ast.specs.Nesting.{record_nesting, type_nesting, variant_nesting};

use crate::json_schema::type_of::{RecordType, Type, TypeVariant};

/// Whether at most so many sets and records stand in one another in a type.
#[cycle(nesting)]
fn type_is_within<N: Drop>(ty: &Type<N>, levels: u32) -> bool
    ensures { IsTrue result ↔ (type_nesting N ty.now ≤ levels) }
{
    match ty {
        Type::Plain { ty, .. } => variant_is_within(ty, levels),
        Type::CommonTypeRef { .. } => true,
    }
}

/// The same of a type variant.
#[cycle(nesting)]
fn variant_is_within<N: Drop>(ty: &TypeVariant<N>, levels: u32) -> bool
    ensures { IsTrue result ↔ (variant_nesting N ty.now ≤ levels) }
{
    match ty {
        TypeVariant::Set { element } => levels > 0 && type_is_within(element, levels - 1),
        TypeVariant::Record(record_type) => levels > 0 && record_is_within(record_type, levels - 1),
        TypeVariant::String => true,
        TypeVariant::Long => true,
        TypeVariant::Boolean => true,
        TypeVariant::Entity { .. } => true,
        TypeVariant::EntityOrCommon { .. } => true,
        TypeVariant::Extension { .. } => true,
    }
}

/// The same of each attribute of a record type.
#[cycle(nesting)]
fn record_is_within<N: Drop>(record_type: &RecordType<N>, levels: u32) -> bool
    ensures { IsTrue result ↔ (record_nesting N record_type.now ≤ levels) }
{
    for (_name, attribute) in &record_type.attributes {
        if !type_is_within(&attribute.ty, levels) {
            return false;
        }
    }
    true
}

impl<N: Drop> Type<N> {
    /// Whether at most `levels` sets and records stand in one another: 0 of a type that is neither,
    /// 1 of a set of numbers. A reference to a common type counts for nothing, whatever stands in
    /// that. It takes no memory, and goes down at most `levels` levels, so that whoever has types
    /// from a stranger can ask before anything else goes down them.
    pub fn is_nested_at_most(&self, levels: u32) -> bool
        ensures { IsTrue result ↔ (type_nesting N self.now ≤ levels) }
    {
        type_is_within(self, levels)
    }
}
