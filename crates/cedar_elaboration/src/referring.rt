//! The indices of the common types that a type refers to.

ghost use Rattle.std.specs.Prelude.{[], IfOk, OnOk};
ghost use Rattle.cedar_elaboration.specs.Words.{AddsIndices, Refers, held_names, indexed_names, named, namespace_name, record_type_expr, type_expr, variant_expr};

use crate::indices::Indices;
use crate::type_scope::may_name_common;
use cedar_ast::{InternalName, M};
use cedar_name_resolution::defs::{AllDefs, WrittenName};
use cedar_schema_ast::json_schema;
use cedar_schema_ast::json_schema::{RecordType, ReferenceType, TypeVariant};
use std::alloc::Global;

/// What the names in a type are looked up in.
#[derive(Clone, Copy)]
pub(crate) struct IndexScope<'a> {
    /// The namespace that they are written in.
    pub(crate) namespace: Option<&'a InternalName>,
    /// The indices of the common types.
    pub(crate) indices: &'a Indices,
    /// The names that are defined.
    pub(crate) defs: &'a AllDefs,
}

/// Adds the index of the common type that a name stands for, if a reference of the kind may name
/// one and there is one.
fn add_index<N: WrittenName>(
    name: &N,
    kind: ReferenceType,
    scope: &IndexScope,
    found: &mut Vec<usize>,
) -> M<()>
    ensures { OnOk result (AddsIndices (held_names scope.now.defs.now)
        (indexed_names scope.now.indices.now)
        (Refers (named (N.refer (namespace_name scope.now.namespace) kind name.now)))
        found.old.items found.new.items) }
{
    if !may_name_common(kind) {
        return Ok(());
    }
    let Some(name) = name.resolved_within(kind, scope.namespace, scope.defs)? else {
        return Ok(());
    };
    if let Some(item_index) = scope.indices.get(&name) {
        found.push(*item_index)?;
    }
    Ok(())
}

/// Adds the indices of the common types that a type refers to.
#[cycle(add)]
fn add_indices<N: WrittenName>(
    ty: &json_schema::Type<N>,
    scope: &IndexScope,
    found: &mut Vec<usize>,
) -> M<()>
    ensures { OnOk result (AddsIndices (held_names scope.now.defs.now)
        (indexed_names scope.now.indices.now)
        (Refers (type_expr N (N.refer (namespace_name scope.now.namespace)) ty.now))
        found.old.items found.new.items) }
{
    match ty {
        json_schema::Type::Plain { ty, .. } => add_variant_indices(ty, scope, found),
        json_schema::Type::CommonTypeRef { type_name, .. } => {
            add_index(type_name, ReferenceType::Common, scope, found)
        }
    }
}

/// Adds the indices of the common types that a type variant refers to.
#[cycle(add)]
fn add_variant_indices<N: WrittenName>(
    ty: &TypeVariant<N>,
    scope: &IndexScope,
    found: &mut Vec<usize>,
) -> M<()>
    ensures { OnOk result (AddsIndices (held_names scope.now.defs.now)
        (indexed_names scope.now.indices.now)
        (Refers (variant_expr N (N.refer (namespace_name scope.now.namespace)) ty.now))
        found.old.items found.new.items) }
{
    match ty {
        TypeVariant::Set { element } => add_indices(element, scope, found),
        TypeVariant::Record(record_type) => add_record_indices(record_type, scope, found),
        TypeVariant::Entity { name } => add_index(name, ReferenceType::Entity, scope, found),
        TypeVariant::EntityOrCommon { type_name } => {
            add_index(type_name, ReferenceType::CommonOrEntity, scope, found)
        }
        TypeVariant::String
        | TypeVariant::Long
        | TypeVariant::Boolean
        | TypeVariant::Extension { .. } => Ok(()),
    }
}

/// Adds the indices of the common types that a record type refers to.
#[cycle(add)]
fn add_record_indices<N: WrittenName>(
    record_type: &RecordType<N>,
    scope: &IndexScope,
    found: &mut Vec<usize>,
) -> M<()>
    ensures { OnOk result (AddsIndices (held_names scope.now.defs.now)
        (indexed_names scope.now.indices.now)
        (Refers (record_type_expr N (N.refer (namespace_name scope.now.namespace)) record_type.now))
        found.old.items found.new.items) }
{
    for (_, attribute) in &record_type.attributes {
        add_indices(&attribute.ty, scope, found)?;
    }
    Ok(())
}

/// The indices of the common types that a type refers to.
pub(crate) fn referred_indices<N: WrittenName>(
    alloc: Global,
    ty: &json_schema::Type<N>,
    scope: &IndexScope,
) -> M<Vec<usize>>
    ensures { IfOk result (λ found.
        AddsIndices (held_names scope.now.defs.now) (indexed_names scope.now.indices.now)
        (Refers (type_expr N (N.refer (namespace_name scope.now.namespace)) ty.now))
        [] found.items) }
{
    let mut found = Vec::new(alloc);
    add_indices(ty, scope, &mut found)?;
    Ok(found)
}
