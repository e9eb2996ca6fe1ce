//! Types over names that aren't resolved yet become types over full names.

ghost use Rattle.std.specs.Prelude.{◌≡◌, IfOk, IfErr, map, Contains};
ghost use Rattle.cedar_fragments.specs.Words.{HoldsPairwise, IsRefusedAmong, Refers, Resolves, ResolvesReference, held_names, namespace_name, no_locs, record_locs, record_type_expr, resolved_expr, resolved_record, resolved_reference, resolved_variant, type_expr, type_locs, variant_expr, variant_locs};
ghost use Rattle.cedar_ast.specs.declared.internal_name.InternalName.{InternalName as Full};
ghost use Rattle.cedar_schema_ast.specs.declared.json_schema.reference_type.ReferenceType.TheVariants.{Entity as entity};

use cedar_ast::{InternalName, put};
use cedar_name_resolution::defs::{AllDefs, WrittenName};
use cedar_name_resolution::resolve_within;
use cedar_schema_ast::json_schema::{
    QualifyError, RecordType, ReferenceType, Type, TypeOfAttribute, TypeVariant,
};
use std::collections::BTreeMap;

/// The same type, where each name is that of what it resolves to. It is refused with
/// `TypeNotDefined` if a name resolves to nothing.
#[cycle(qualify)]
pub(crate) fn qualify_type<N: WrittenName + Drop>(
    ty: Type<N>,
    namespace: Option<&InternalName>,
    all_defs: &AllDefs,
) -> Result<Type<InternalName>, QualifyError>
    ensures resolved { IfOk result (λ it. Resolves (held_names all_defs.now)
        (type_expr N (N.refer (namespace_name namespace.entry)) ty) (resolved_expr it)) }
    ensures locs { IfOk result (λ it. type_locs Full no_locs it ≡ type_locs N no_locs ty) }
    ensures refused { IfErr result (IsRefusedAmong (held_names all_defs.now)
        (Refers (type_expr N (N.refer (namespace_name namespace.entry)) ty))) }
{
    match ty {
        Type::Plain { ty, loc } => {
            let ty = qualify_variant(ty, namespace, all_defs)?;
            Ok(Type::Plain { ty, loc })
        }
        Type::CommonTypeRef { type_name, loc } => {
            let type_name = resolve_within(&type_name, ReferenceType::Common, namespace, all_defs)?;
            Ok(Type::CommonTypeRef { type_name, loc })
        }
    }
}

/// The type variant, with each name that of what it resolves to.
#[cycle(qualify)]
fn qualify_variant<N: WrittenName + Drop>(
    ty: TypeVariant<N>,
    namespace: Option<&InternalName>,
    all_defs: &AllDefs,
) -> Result<TypeVariant<InternalName>, QualifyError>
    ensures resolved { IfOk result (λ it. Resolves (held_names all_defs.now)
        (variant_expr N (N.refer (namespace_name namespace.entry)) ty) (resolved_variant it)) }
    ensures locs { IfOk result (λ it. variant_locs Full no_locs it ≡ variant_locs N no_locs ty) }
    ensures refused { IfErr result (IsRefusedAmong (held_names all_defs.now)
        (Refers (variant_expr N (N.refer (namespace_name namespace.entry)) ty))) }
{
    match ty {
        TypeVariant::String => Ok(TypeVariant::String),
        TypeVariant::Long => Ok(TypeVariant::Long),
        TypeVariant::Boolean => Ok(TypeVariant::Boolean),
        TypeVariant::Set { element } => {
            let element = qualify_type(Box::into_inner(element), namespace, all_defs)?;
            let element = Box::new(all_defs.alloc, element)?;
            Ok(TypeVariant::Set { element })
        }
        TypeVariant::Record(record_type) => {
            let record_type = qualify_record(record_type, namespace, all_defs)?;
            Ok(TypeVariant::Record(record_type))
        }
        TypeVariant::Entity { name } => {
            let name = resolve_within(&name, ReferenceType::Entity, namespace, all_defs)?;
            Ok(TypeVariant::Entity { name })
        }
        TypeVariant::EntityOrCommon { type_name } => {
            let type_name = resolve_within(
                &type_name,
                ReferenceType::CommonOrEntity,
                namespace,
                all_defs,
            )?;
            Ok(TypeVariant::EntityOrCommon { type_name })
        }
        TypeVariant::Extension { name } => Ok(TypeVariant::Extension { name }),
    }
}

/// The record type, with each name in its attributes that of what it resolves to.
#[cycle(qualify)]
fn qualify_record<N: WrittenName + Drop>(
    record_type: RecordType<N>,
    namespace: Option<&InternalName>,
    all_defs: &AllDefs,
) -> Result<RecordType<InternalName>, QualifyError>
    ensures resolved { IfOk result (λ it. Resolves (held_names all_defs.now)
        (record_type_expr N (N.refer (namespace_name namespace.entry)) record_type)
        (resolved_record it)) }
    ensures locs { IfOk result (λ it.
        record_locs Full no_locs it ≡ record_locs N no_locs record_type) }
    ensures refused { IfErr result (IsRefusedAmong (held_names all_defs.now)
        (Refers (record_type_expr N (N.refer (namespace_name namespace.entry)) record_type))) }
{
    let RecordType {
        attributes: written,
        additional_attributes,
    } = record_type;
    let mut attributes = BTreeMap::new(all_defs.alloc);
    for (name, attribute) in written {
        let TypeOfAttribute { ty, required, loc } = attribute;
        let ty = qualify_type(ty, namespace, all_defs)?;
        put(&mut attributes, name, TypeOfAttribute { ty, required, loc })?;
    }
    Ok(RecordType {
        attributes,
        additional_attributes,
    })
}

/// The names of the entity types that some names resolve to. It is refused with `TypeNotDefined` if
/// one resolves to none.
pub(crate) fn qualify_entity_types<N: WrittenName + Drop>(
    names: Vec<N>,
    namespace: Option<&InternalName>,
    all_defs: &AllDefs,
) -> Result<Vec<InternalName>, QualifyError>
    ensures resolved { IfOk result (λ it.
        HoldsPairwise (ResolvesReference (held_names all_defs.now))
        (map (N.refer (namespace_name namespace.entry) entity) names.items)
        (map (resolved_reference entity) it.items)) }
    ensures refused { IfErr result
        (IsRefusedAmong (held_names all_defs.now)
        (Contains (map (N.refer (namespace_name namespace.entry) entity) names.items))) }
{
    let mut qualified = Vec::with_capacity(all_defs.alloc, names.len())?;
    for name in names {
        qualified.push(resolve_within(&name, ReferenceType::Entity, namespace, all_defs)?)?;
    }
    Ok(qualified)
}
