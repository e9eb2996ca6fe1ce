//! Types elaborated as they are written.

ghost use Rattle.std.specs.Prelude.{◌≡◌, [], ◌∷◌, IfErr, IfOk, OnOk};
ghost use Rattle.cedar_elaboration.specs.Words.{CoversExtensions, ElaboratesAs, HasOpenRecord, IsElaborationFault, ResolvesEach, fault_of, fields_of, named, namespace_name, record_of, record_type_expr, ty_of, type_expr, type_not_defined, variant_expr};

use crate::type_scope::{TypeScope, entity_reference};
use cedar_ast::{InternalName, M, NonEmpty};
use cedar_name_resolution::defs::WrittenName;
use cedar_schema_ast::json_schema;
use cedar_schema_ast::json_schema::{RecordType, ReferenceType, TypeNotDefinedError, TypeVariant};
use cedar_schema_semantics::{SchemaError, UnsupportedFeature};
use cedar_types::{AttributeType, Attributes, OpenTag, Type};
use std::alloc::Global;
use std::rc::Rc;

/// The refusal of a name that stands for nothing where it is written.
pub fn undefined_type<N: WrittenName>(
    alloc: Global,
    name: &N,
    kind: ReferenceType,
    namespace: Option<&InternalName>,
) -> M<SchemaError>
    ensures { IfOk result (λ error. fault_of error
        ≡ type_not_defined (N.refer (namespace_name namespace.entry) kind name.now ∷ [])) }
{
    let reference = name.reference_within(alloc, kind, namespace)?;
    Ok(SchemaError::TypeNotDefined(TypeNotDefinedError {
        undefined_types: NonEmpty {
            head: reference,
            tail: Vec::new(alloc),
        },
    }))
}

/// The type that a name stands for that is written in a namespace, at a position of the kind: what
/// the common type was elaborated as, or the type of the entities.
fn elaborate_reference<N: WrittenName>(
    alloc: Global,
    name: &N,
    kind: ReferenceType,
    namespace: Option<&InternalName>,
    scope: &TypeScope,
) -> Result<Type, SchemaError>
    ensures elaborates { IfOk result (λ elaborated. ElaboratesAs scope.now
        (named (N.refer (namespace_name namespace.entry) kind name.now)) (ty_of elaborated)) }
    ensures fault { IfErr result (λ error. IsElaborationFault scope.now
        (named (N.refer (namespace_name namespace.entry) kind name.now)) (fault_of error)) }
{
    let Some(full) = name.resolved_within(kind, namespace, scope.defs)? else {
        return Err(undefined_type(alloc, name, kind, namespace)?);
    };
    if let Some(ty) = scope.common_type(&full, kind)? {
        return Ok(ty);
    }
    entity_reference(alloc, full)
}

/// The type that a type stands for that is written in a namespace, shared with others where it is
/// primitive.
#[cycle(elaborate_variant)]
fn elaborate_shared<N: WrittenName>(
    alloc: Global,
    ty: &json_schema::Type<N>,
    namespace: Option<&InternalName>,
    scope: &TypeScope,
) -> Result<Rc<Type>, SchemaError>
    ensures elaborates { IfOk result (λ elaborated.
        ElaboratesAs scope.now
        (type_expr N (N.refer (namespace_name namespace.entry)) ty.now)
        (ty_of elaborated.value)) }
    ensures closed { OnOk result (¬ HasOpenRecord
        (type_expr N (N.refer (namespace_name namespace.entry)) ty.now)) }
    ensures extensions { OnOk result (CoversExtensions scope.now
        (type_expr N (N.refer (namespace_name namespace.entry)) ty.now)) }
    ensures fault { IfErr result (λ error.
        IsElaborationFault scope.now
        (type_expr N (N.refer (namespace_name namespace.entry)) ty.now)
        (fault_of error)) }
{
    let made = match ty {
        json_schema::Type::Plain { ty, .. } => {
            if let Some(shared) = scope.shared.primitive(ty) {
                return Ok(shared.clone()?);
            }
            elaborate_variant(alloc, ty, namespace, scope)?
        }
        json_schema::Type::CommonTypeRef { type_name, .. } => {
            elaborate_reference(alloc, type_name, ReferenceType::Common, namespace, scope)?
        }
    };
    Ok(Rc::new(alloc, made)?)
}

/// The type that a type variant stands for that is written in a namespace.
#[cycle(elaborate_variant)]
fn elaborate_variant<N: WrittenName>(
    alloc: Global,
    ty: &TypeVariant<N>,
    namespace: Option<&InternalName>,
    scope: &TypeScope,
) -> Result<Type, SchemaError>
    ensures elaborates { IfOk result (λ elaborated.
        ElaboratesAs scope.now
        (variant_expr N (N.refer (namespace_name namespace.entry)) ty.now)
        (ty_of elaborated)) }
    ensures closed { OnOk result (¬ HasOpenRecord
        (variant_expr N (N.refer (namespace_name namespace.entry)) ty.now)) }
    ensures extensions { OnOk result (CoversExtensions scope.now
        (variant_expr N (N.refer (namespace_name namespace.entry)) ty.now)) }
    ensures fault { IfErr result (λ error.
        IsElaborationFault scope.now
        (variant_expr N (N.refer (namespace_name namespace.entry)) ty.now)
        (fault_of error)) }
{
    match ty {
        TypeVariant::String => Ok(Type::primitive_string()),
        TypeVariant::Long => Ok(Type::primitive_long()),
        TypeVariant::Boolean => Ok(Type::primitive_boolean()),
        TypeVariant::Set { element } => {
            Ok(Type::set(elaborate_shared(alloc, element, namespace, scope)?))
        }
        TypeVariant::Record(record_type) => Ok(Type::Record {
            attrs: elaborate_attributes(alloc, record_type, namespace, scope)?,
            open_attributes: OpenTag::ClosedAttributes,
        }),
        TypeVariant::Entity { name } => {
            elaborate_reference(alloc, name, ReferenceType::Entity, namespace, scope)
        }
        TypeVariant::EntityOrCommon { type_name } => {
            elaborate_reference(
                alloc,
                type_name,
                ReferenceType::CommonOrEntity,
                namespace,
                scope,
            )
        }
        TypeVariant::Extension { name } => scope.extension_type(alloc, name),
    }
}

/// The attributes of a record type, each with its flag and its location.
#[cycle(elaborate_variant)]
fn elaborate_attributes<N: WrittenName>(
    alloc: Global,
    record_type: &RecordType<N>,
    namespace: Option<&InternalName>,
    scope: &TypeScope,
) -> Result<Attributes, SchemaError>
    ensures elaborates { IfOk result (λ elaborated.
        ElaboratesAs scope.now
        (record_type_expr N (N.refer (namespace_name namespace.entry)) record_type.now)
        (record_of (fields_of elaborated) OpenTag.ClosedAttributes)) }
    ensures closed { OnOk result (¬ HasOpenRecord
        (record_type_expr N (N.refer (namespace_name namespace.entry)) record_type.now)) }
    ensures extensions { OnOk result (CoversExtensions scope.now
        (record_type_expr N (N.refer (namespace_name namespace.entry)) record_type.now)) }
    ensures fault { IfErr result (λ error.
        IsElaborationFault scope.now
        (record_type_expr N (N.refer (namespace_name namespace.entry)) record_type.now)
        (fault_of error)) }
{
    if record_type.additional_attributes {
        return Err(SchemaError::UnsupportedFeature(UnsupportedFeature::OpenRecordsAndEntities));
    }
    let mut attributes = Vec::with_capacity(alloc, record_type.attributes.len())?;
    for (name, attribute) in &record_type.attributes {
        let ty = elaborate_shared(alloc, &attribute.ty, namespace, scope)?;
        let declared = AttributeType::new_with_loc(ty, attribute.required, attribute.loc);
        attributes.push((name.clone()?, declared))?;
    }
    Ok(Attributes::from_entries(alloc, attributes)?)
}

/// The type that a type stands for that is written in a namespace.
fn elaborate_type<N: WrittenName>(
    alloc: Global,
    ty: &json_schema::Type<N>,
    namespace: Option<&InternalName>,
    scope: &TypeScope,
) -> Result<Type, SchemaError>
    ensures elaborates { IfOk result (λ elaborated.
        ElaboratesAs scope.now
        (type_expr N (N.refer (namespace_name namespace.entry)) ty.now)
        (ty_of elaborated)) }
    ensures closed { OnOk result (¬ HasOpenRecord
        (type_expr N (N.refer (namespace_name namespace.entry)) ty.now)) }
    ensures extensions { OnOk result (CoversExtensions scope.now
        (type_expr N (N.refer (namespace_name namespace.entry)) ty.now)) }
    ensures fault { IfErr result (λ error.
        IsElaborationFault scope.now
        (type_expr N (N.refer (namespace_name namespace.entry)) ty.now)
        (fault_of error)) }
{
    match ty {
        json_schema::Type::Plain { ty, .. } => elaborate_variant(alloc, ty, namespace, scope),
        json_schema::Type::CommonTypeRef { type_name, .. } => {
            elaborate_reference(alloc, type_name, ReferenceType::Common, namespace, scope)
        }
    }
}

/// Elaborates a type that is written in a namespace, None being the empty one. Each name stands
/// for what it resolves to there: a name of a common type becomes what that common type was
/// elaborated as, a name of an entity type the type of its entities, and a record type one of the
/// same attributes, each with its flag and its location. A name that is both, where either may
/// stand, is the common type.
///
/// It errs where a record admits attributes that it doesn't list, a name is neither that of a
/// common type nor that of an entity type which its position permits, an extension type isn't
/// known, an entity type's name is reserved, or memory runs out.
pub fn elaborate<N: WrittenName>(
    alloc: Global,
    ty: &json_schema::Type<N>,
    namespace: Option<&InternalName>,
    scope: &TypeScope,
) -> Result<Type, SchemaError>
    ensures elaborates { IfOk result (λ elaborated.
        ElaboratesAs scope.now
        (type_expr N (N.refer (namespace_name namespace.entry)) ty.now)
        (ty_of elaborated)) }
    ensures closed { OnOk result (¬ HasOpenRecord
        (type_expr N (N.refer (namespace_name namespace.entry)) ty.now)) }
    ensures extensions { OnOk result (CoversExtensions scope.now
        (type_expr N (N.refer (namespace_name namespace.entry)) ty.now)) }
    ensures resolved { OnOk result (ResolvesEach scope.now
        (type_expr N (N.refer (namespace_name namespace.entry)) ty.now)) }
    ensures fault { IfErr result (λ error.
        IsElaborationFault scope.now
        (type_expr N (N.refer (namespace_name namespace.entry)) ty.now)
        (fault_of error)) }
{
    elaborate_type(alloc, ty, namespace, scope)
}
