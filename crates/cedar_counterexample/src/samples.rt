//! One value of a type, with no part that it doesn't need.

ghost use Rattle.std.specs.Prelude.{◌≡◌, [], IfOk};
ghost use Rattle.cedar_counterexample.specs.Words.{AreSampledIn, Extensions, IsFilled, IsSampledIn, IsValueOf, entries_of, fields_of, kind_ty, tree_of, ty_of, type_name, uid_value};

use crate::fresh::type_of_length;
use crate::putting::put;
use crate::search::Search;
use cedar_ast::{Eid, EntityType, EntityUID, M, RestrictedExpr};
use cedar_types::{Attributes, BoolType, EntityKind, Type};
use std::alloc::Global;
use std::collections::BTreeMap;

/// The entity of a type with the empty id.
pub(crate) fn entity_of(alloc: Global, ty: EntityType) -> RestrictedExpr
    ensures { tree_of result ≡ uid_value (record { ty = type_name ty; eid = [] }) }
{
    let eid = Eid(String::new(alloc));
    RestrictedExpr::EntityUid(EntityUID::new(ty, eid, None))
}

/// An entity of a kind.
fn sample_entity(alloc: Global, kind: &EntityKind) -> M<RestrictedExpr>
    ensures { IfOk result (λ sample.
        (extensions : Extensions) → IsValueOf extensions (kind_ty kind.now) (tree_of sample)) }
{
    match kind {
        EntityKind::AnyEntity => Ok(entity_of(alloc, type_of_length(alloc, 0)?)),
        EntityKind::Entity(lub) => match lub.iter().next() {
            Some(ty) => Ok(entity_of(alloc, ty.clone()?)),
            None => unreachable!(),
        },
    }
}

/// The values of a record, with a sample for each required attribute whose name had none.
#[cycle(samples)]
pub(crate) fn fill(
    search: &Search,
    start: BTreeMap<String, RestrictedExpr>,
    attrs: &Attributes,
) -> M<BTreeMap<String, RestrictedExpr>>
    requires { AreSampledIn search.now (fields_of attrs.now) }
    ensures { IfOk result (λ whole. IsFilled search.now.extensions.now (fields_of attrs.now)
        (entries_of start) (entries_of whole)) }
{
    let mut values = start;
    for (name, attribute) in attrs.iter() {
        if attribute.is_required && !values.contains_key(name.as_str()) {
            let sample = sample_of(search, &attribute.attr_type)?;
            put(&mut values, name.clone()?, sample)?;
        }
    }
    Ok(values)
}

/// A value of a type that is inhabited by samples: of an extension type a copy of a sample, of sets
/// the empty one, and of a record one with the required attributes alone.
#[cycle(samples)]
pub(crate) fn sample_of(search: &Search, ty: &Type) -> M<RestrictedExpr>
    requires { IsSampledIn search.now (ty_of ty.now) }
    ensures { IfOk result (λ sample.
        IsValueOf search.now.extensions.now (ty_of ty.now) (tree_of sample)) }
{
    let alloc = search.alloc;
    match ty {
        Type::Never => unreachable!(),
        Type::Bool(known) => Ok(RestrictedExpr::Bool(*known != BoolType::False)),
        Type::Long => Ok(RestrictedExpr::Long(0)),
        Type::String => Ok(RestrictedExpr::String(String::new(alloc))),
        Type::Entity(kind) => sample_entity(alloc, kind),
        Type::Set { .. } => Ok(RestrictedExpr::Set(Vec::new(alloc))),
        Type::Record { attrs, .. } => {
            let values = fill(search, BTreeMap::new(alloc), attrs)?;
            Ok(RestrictedExpr::Record(values))
        }
        Type::ExtensionType { .. } => match ty.sample_among(search.extensions, search.samples) {
            Some(sample) => sample.expr().clone(),
            None => unreachable!(),
        },
    }
}
