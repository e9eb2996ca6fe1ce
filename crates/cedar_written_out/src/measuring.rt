//! Types measured as they are written.

ghost use Rattle.std.specs.Prelude.{◌≡◌, IfOk};
ghost use Rattle.cedar_written_out.specs.Words.{Defined, IsMeasured, Knows, figure_at, named, namespace_name, raw_expr, raw_record, raw_reference, raw_variant};

use crate::figure::Figure;
use cedar_ast::{InternalName, M};
use cedar_elaboration::{Indices, may_name_common};
use cedar_name_resolution::defs::{AllDefs, WrittenName};
use cedar_schema_ast::json_schema::{RawName, RecordType, ReferenceType, Type, TypeVariant};

/// What is known as types are measured.
#[derive(Clone, Copy)]
pub(crate) struct FigureScope<'a> {
    /// The names that are defined.
    pub(crate) defs: &'a AllDefs,
    /// The indices of the common types.
    pub(crate) indices: &'a Indices,
    /// The figures of the common types by their indices, None where one has none.
    pub(crate) figures: &'a [Option<Figure>],
}

impl FigureScope<'_> {
    /// The figure of the common type at an index, if it has one.
    pub(crate) fn figure_at(&self, item_index: usize) -> Option<Figure>
        ensures { result ≡ figure_at self.now.figures.now item_index }
    {
        match self.figures.get(item_index) {
            Some(figure) => *figure,
            None => None,
        }
    }
}

/// The figure of the type that a name stands for that is written in a namespace, at a position of
/// the kind: that of the common type, or that of an entity type. None where the name stands for
/// nothing, or the common type has none.
fn measure_reference(
    name: &RawName,
    kind: ReferenceType,
    namespace: Option<&InternalName>,
    scope: &FigureScope,
) -> M<Option<Figure>>
    ensures { IfOk result (λ found. (defined : Defined)
        → Knows defined scope.now
        (named (raw_reference (namespace_name namespace.entry) kind name.now))
        → IsMeasured defined
        (named (raw_reference (namespace_name namespace.entry) kind name.now)) found) }
{
    let Some(full) = name.resolved_within(kind, namespace, scope.defs)? else {
        return Ok(None);
    };
    if !may_name_common(kind) {
        return Ok(Some(Figure::single()));
    }
    match scope.indices.get(&full) {
        Some(item_index) => Ok(scope.figure_at(*item_index)),
        None => Ok(Some(Figure::single())),
    }
}

/// The figure of a type variant that is written in a namespace.
#[cycle(measure)]
fn measure_variant(
    ty: &TypeVariant<RawName>,
    namespace: Option<&InternalName>,
    scope: &FigureScope,
) -> M<Option<Figure>>
    ensures { IfOk result (λ found. (defined : Defined)
        → Knows defined scope.now (raw_variant (namespace_name namespace.entry) ty.now)
        → IsMeasured defined (raw_variant (namespace_name namespace.entry) ty.now) found) }
{
    match ty {
        TypeVariant::Set { element } => match measure(element, namespace, scope)? {
            Some(figure) => Ok(Some(Figure::single().with(figure))),
            None => Ok(None),
        },
        TypeVariant::Record(record_type) => measure_record(record_type, namespace, scope),
        TypeVariant::Entity { name } => {
            measure_reference(name, ReferenceType::Entity, namespace, scope)
        }
        TypeVariant::EntityOrCommon { type_name } => {
            measure_reference(type_name, ReferenceType::CommonOrEntity, namespace, scope)
        }
        TypeVariant::String => Ok(Some(Figure::single())),
        TypeVariant::Long => Ok(Some(Figure::single())),
        TypeVariant::Boolean => Ok(Some(Figure::single())),
        TypeVariant::Extension { .. } => Ok(Some(Figure::single())),
    }
}

/// The figure of a record type that is written in a namespace.
#[cycle(measure)]
fn measure_record(
    record_type: &RecordType<RawName>,
    namespace: Option<&InternalName>,
    scope: &FigureScope,
) -> M<Option<Figure>>
    ensures { IfOk result (λ found. (defined : Defined)
        → Knows defined scope.now (raw_record (namespace_name namespace.entry) record_type.now)
        → IsMeasured defined (raw_record (namespace_name namespace.entry) record_type.now) found) }
{
    let mut whole = Figure::single();
    for (_, attribute) in &record_type.attributes {
        let Some(figure) = measure(&attribute.ty, namespace, scope)? else {
            return Ok(None);
        };
        whole = whole.with(figure);
    }
    Ok(Some(whole))
}

/// The figure of a type that is written in a namespace, None being the empty one, once the common
/// types that it refers to stand in their places. There is none where a name stands for nothing, or
/// for a common type that has none.
#[cycle(measure)]
pub(crate) fn measure(
    ty: &Type<RawName>,
    namespace: Option<&InternalName>,
    scope: &FigureScope,
) -> M<Option<Figure>>
    ensures { IfOk result (λ found. (defined : Defined)
        → Knows defined scope.now (raw_expr (namespace_name namespace.entry) ty.now)
        → IsMeasured defined (raw_expr (namespace_name namespace.entry) ty.now) found) }
{
    match ty {
        Type::Plain { ty, .. } => measure_variant(ty, namespace, scope),
        Type::CommonTypeRef { type_name, .. } => {
            measure_reference(type_name, ReferenceType::Common, namespace, scope)
        }
    }
}
