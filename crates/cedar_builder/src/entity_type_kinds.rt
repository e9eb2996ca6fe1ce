//! Entity types that are elaborated, each from one declaration.

ghost use Rattle.std.specs.Prelude.{◌≡◌, ◌⊎◌, IfErr, IfOk, List, OnOk, Some};
ghost use Rattle.cedar_builder.specs.Words.{AreElaboratedTags, CoversExtensions, ElaboratesAs, Expr, HasOpenRecord, IsBodyFault, IsElaboratedEntity, IsRecordType, IsSoundBody, Reference, ResolvesEach, Ty, fault_of, fields_of, fragment_body, namespace_name, option_map, out_of_memory, record_of, shape_not_record, standard, ty_of, type_expr, type_name};
ghost use Rattle.cedar_elaboration.specs.Refusals.{IsElaborationFault};

use cedar_ast::{EntityType, InternalName};
use cedar_elaboration::{TypeScope, elaborate};
use cedar_fragments::namespace::EntityTypeFragment;
use cedar_name_resolution::defs::WrittenName;
use cedar_schema_ast::json_schema;
use cedar_schema_elements::ValidatorEntityType;
use cedar_schema_semantics::{ContextOrShape, SchemaError};
use cedar_types::{Attributes, OpenTag, Type};
use std::alloc::Global;

/// The attributes of the shape of an entity type, which must be a record type.
fn shape_attributes<N: WrittenName>(
    alloc: Global,
    name: &EntityType,
    shape: &json_schema::Type<N>,
    namespace: Option<&InternalName>,
    scope: &TypeScope,
) -> Result<Attributes, SchemaError>
    ensures elaborates { IfOk result (λ elaborated.
        ElaboratesAs scope.now (type_expr N (N.refer (namespace_name namespace.entry)) shape.now)
        (record_of (fields_of elaborated) OpenTag.ClosedAttributes)) }
    ensures closed { OnOk result (¬ HasOpenRecord
        (type_expr N (N.refer (namespace_name namespace.entry)) shape.now)) }
    ensures extensions { OnOk result (CoversExtensions scope.now
        (type_expr N (N.refer (namespace_name namespace.entry)) shape.now)) }
    ensures resolved { OnOk result (ResolvesEach scope.now
        (type_expr N (N.refer (namespace_name namespace.entry)) shape.now)) }
    ensures fault { IfErr result (λ error. (fault_of error ≡ out_of_memory)
        ⊎ (IsElaborationFault scope.now
        (type_expr N (N.refer (namespace_name namespace.entry)) shape.now)
        (fault_of error)
        ⊎ ((fault_of error ≡ shape_not_record (type_name name.now))
        × ((ty : Ty) × ElaboratesAs scope.now
        (type_expr N (N.refer (namespace_name namespace.entry)) shape.now) ty
        × ¬ IsRecordType ty)))) }
{
    let elaborated = elaborate(alloc, shape, namespace, scope)?;
    if let Type::Record { attrs, .. } = elaborated {
        return Ok(attrs);
    }
    Err(SchemaError::ContextOrShapeNotRecord(ContextOrShape::EntityTypeShape(name.clone()?)))
}

/// The type of the tags, if there is one.
fn tags_type<N: WrittenName>(
    alloc: Global,
    tags: &Option<json_schema::Type<N>>,
    namespace: Option<&InternalName>,
    scope: &TypeScope,
) -> Result<Option<Type>, SchemaError>
    ensures elaborates { IfOk result (λ elaborated.
        AreElaboratedTags scope.now
        (option_map (type_expr N (N.refer (namespace_name namespace.entry))) tags.now)
        (option_map ty_of elaborated)) }
    ensures closed { OnOk result ((expr : Expr)
        → option_map (type_expr N (N.refer (namespace_name namespace.entry))) tags.now
        ≡ Some expr → ¬ HasOpenRecord expr) }
    ensures extensions { OnOk result ((expr : Expr)
        → option_map (type_expr N (N.refer (namespace_name namespace.entry))) tags.now
        ≡ Some expr → CoversExtensions scope.now expr) }
    ensures resolved { OnOk result ((expr : Expr)
        → option_map (type_expr N (N.refer (namespace_name namespace.entry))) tags.now
        ≡ Some expr → ResolvesEach scope.now expr) }
    ensures fault { IfErr result (λ error. (fault_of error ≡ out_of_memory)
        ⊎ ((expr : Expr)
        × (option_map (type_expr N (N.refer (namespace_name namespace.entry))) tags.now
        ≡ Some expr)
        × IsElaborationFault scope.now expr (fault_of error))) }
{
    match tags {
        None => Ok(None),
        Some(ty) => Ok(Some(elaborate(alloc, ty, namespace, scope)?)),
    }
}

/// The standard entity type of a name with this shape and this type of tags, as yet without
/// descendants.
fn standard_type<N: WrittenName>(
    alloc: Global,
    name: EntityType,
    shape: &json_schema::Type<N>,
    tags: &Option<json_schema::Type<N>>,
    namespace: Option<&InternalName>,
    scope: &TypeScope,
) -> Result<ValidatorEntityType, SchemaError>
    ensures elaborates { IfOk result (λ ty.
        (parents : List Reference) → IsElaboratedEntity scope.now (type_name name)
        (standard parents (type_expr N (N.refer (namespace_name namespace.entry)) shape.now)
        (option_map (type_expr N (N.refer (namespace_name namespace.entry))) tags.now)) ty) }
    ensures sound { OnOk result ((parents : List Reference) → IsSoundBody scope.now
        (standard parents (type_expr N (N.refer (namespace_name namespace.entry)) shape.now)
        (option_map (type_expr N (N.refer (namespace_name namespace.entry))) tags.now))) }
    ensures fault { IfErr result (λ error.
        (parents : List Reference) → IsBodyFault scope.now (type_name name)
        (standard parents (type_expr N (N.refer (namespace_name namespace.entry)) shape.now)
        (option_map (type_expr N (N.refer (namespace_name namespace.entry))) tags.now))
        (fault_of error)) }
{
    let loc = name.loc();
    let attributes = shape_attributes(alloc, &name, shape, namespace, scope)?;
    let tags = tags_type(alloc, tags, namespace, scope)?;
    let open = OpenTag::ClosedAttributes;
    let none = scope.shared.no_attributes()?;
    Ok(ValidatorEntityType::new_standard_sharing(alloc, name, attributes, open, tags, none, loc))
}

/// The entity type that a declaration of the name gives alone, as yet without descendants.
pub(crate) fn elaborated_type<N: WrittenName + Drop>(
    alloc: Global,
    name: EntityType,
    fragment: EntityTypeFragment<N>,
    namespace: Option<&InternalName>,
    scope: &TypeScope,
) -> Result<ValidatorEntityType, SchemaError>
    ensures elaborates { IfOk result (λ ty.
        IsElaboratedEntity scope.now (type_name name)
        (fragment_body N (N.refer (namespace_name namespace.entry)) fragment) ty) }
    ensures sound { OnOk result (IsSoundBody scope.now
        (fragment_body N (N.refer (namespace_name namespace.entry)) fragment)) }
    ensures fault { IfErr result (λ error.
        IsBodyFault scope.now (type_name name)
        (fragment_body N (N.refer (namespace_name namespace.entry)) fragment)
        (fault_of error)) }
{
    let loc = name.loc();
    match fragment {
        EntityTypeFragment::Standard {
            attributes,
            parents: _parents,
            tags,
        } => standard_type(alloc, name, &attributes.0, &tags, namespace, scope),
        EntityTypeFragment::Enum(choices) => {
            let descendants: Vec<EntityType> = Vec::new(alloc);
            Ok(ValidatorEntityType::new_enum(alloc, name, descendants, choices, loc)?)
        }
        EntityTypeFragment::External { parents: _parents } => {
            let descendants: Vec<EntityType> = Vec::new(alloc);
            Ok(ValidatorEntityType::new_external(alloc, name, descendants, loc)?)
        }
    }
}
