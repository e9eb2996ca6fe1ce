//! Types over raw names become types over conditional names, in the namespace that they stand in.

ghost use Rattle.std.specs.Prelude.{◌≡◌, IfOk};
ghost use Rattle.cedar_schema_ast.specs.Words.{ReferencesFit, conditional_expr, conditional_record, conditional_variant, namespace_name, positional_expr, positional_record, positional_variant, raw_expr, raw_record, raw_variant};

use crate::json_schema::conditional_name::ConditionalName;
use crate::json_schema::raw_name::RawName;
use crate::json_schema::reference_type::ReferenceType;
use crate::json_schema::type_of::{RecordType, Type, TypeOfAttribute, TypeVariant};
use cedar_ast::{InternalName, M, put};
use std::alloc::Global;
use std::collections::BTreeMap;

/// The same type, where each name is conditional in the namespace.
#[cycle(qualify)]
fn qualify_type(
    alloc: Global,
    ty: Type<RawName>,
    namespace: Option<&InternalName>,
) -> M<Type<ConditionalName>>
    ensures own { IfOk result (λ it.
        conditional_expr it ≡ raw_expr (namespace_name namespace.entry) ty) }
    ensures placed { IfOk result (λ it.
        positional_expr it ≡ raw_expr (namespace_name namespace.entry) ty) }
{
    match ty {
        Type::Plain { ty, loc } => {
            let ty = qualify_variant(alloc, ty, namespace)?;
            Ok(Type::Plain { ty, loc })
        }
        Type::CommonTypeRef { type_name, loc } => {
            let kind = ReferenceType::Common;
            let type_name = type_name.conditionally_qualify_with(alloc, namespace, kind)?;
            Ok(Type::CommonTypeRef { type_name, loc })
        }
    }
}

/// The same type variant, where each name is conditional.
#[cycle(qualify)]
fn qualify_variant(
    alloc: Global,
    ty: TypeVariant<RawName>,
    namespace: Option<&InternalName>,
) -> M<TypeVariant<ConditionalName>>
    ensures own { IfOk result (λ it.
        conditional_variant it ≡ raw_variant (namespace_name namespace.entry) ty) }
    ensures placed { IfOk result (λ it.
        positional_variant it ≡ raw_variant (namespace_name namespace.entry) ty) }
{
    match ty {
        TypeVariant::String => Ok(TypeVariant::String),
        TypeVariant::Long => Ok(TypeVariant::Long),
        TypeVariant::Boolean => Ok(TypeVariant::Boolean),
        TypeVariant::Set { element } => {
            let element = qualify_type(alloc, Box::into_inner(element), namespace)?;
            let element = Box::new(alloc, element)?;
            Ok(TypeVariant::Set { element })
        }
        TypeVariant::Record(record_type) => {
            let record_type = qualify_record(alloc, record_type, namespace)?;
            Ok(TypeVariant::Record(record_type))
        }
        TypeVariant::Entity { name } => {
            let kind = ReferenceType::Entity;
            let name = name.conditionally_qualify_with(alloc, namespace, kind)?;
            Ok(TypeVariant::Entity { name })
        }
        TypeVariant::EntityOrCommon { type_name } => {
            let kind = ReferenceType::CommonOrEntity;
            let type_name = type_name.conditionally_qualify_with(alloc, namespace, kind)?;
            Ok(TypeVariant::EntityOrCommon { type_name })
        }
        TypeVariant::Extension { name } => Ok(TypeVariant::Extension { name }),
    }
}

/// The same record type, where each name is conditional.
#[cycle(qualify)]
fn qualify_record(
    alloc: Global,
    record_type: RecordType<RawName>,
    namespace: Option<&InternalName>,
) -> M<RecordType<ConditionalName>>
    ensures own { IfOk result (λ it.
        conditional_record it ≡ raw_record (namespace_name namespace.entry) record_type) }
    ensures placed { IfOk result (λ it.
        positional_record it ≡ raw_record (namespace_name namespace.entry) record_type) }
{
    let RecordType {
        attributes: written,
        additional_attributes,
    } = record_type;
    let mut attributes = BTreeMap::new(alloc);
    for (name, attribute) in written {
        let TypeOfAttribute { ty, required, loc } = attribute;
        let ty = qualify_type(alloc, ty, namespace)?;
        put(&mut attributes, name, TypeOfAttribute { ty, required, loc })?;
    }
    Ok(RecordType {
        attributes,
        additional_attributes,
    })
}

impl Type<RawName> {
    /// The same type, where each name is conditional in the namespace, None being the empty one: a
    /// name of a common type, of an entity type, or of either, whichever its position permits.
    /// Locations are kept. Out of memory is the only refusal.
    pub fn conditionally_qualify_type_references(
        self,
        alloc: Global,
        namespace: Option<&InternalName>,
    ) -> M<Type<ConditionalName>>
        ensures written { IfOk result (λ it.
            conditional_expr it ≡ raw_expr (namespace_name namespace.entry) self) }
        ensures fits { IfOk result ReferencesFit }
    {
        qualify_type(alloc, self, namespace)
    }
}
