//! The walk down a type to a uid that its values may name and that isn't kept.

ghost use Rattle.std.specs.Prelude.{◌≡◌, [], IfOk, IfSome, None, string_bytes};
ghost use Rattle.std.specs.Option.{option_map};
ghost use Rattle.cedar_counterexample.specs.Words.{any_set, AreSampledIn, Extensions, HasUid, IsLostUid, IsNamingAnswer, IsNamingRecord, IsNamingStartAnswer, IsOpenAnswer, IsSampledIn, KeepsIds, fields_of, kind_ty, lub_names, naming_of, naming_start_of, record_naming, record_of, set_of, start_through, tree_of, ty_of, uid_of, uid_value, union_of};

use crate::found::{Found, Start};
use crate::fresh::fresh_name;
use crate::leaves::set_of_one;
use crate::samples::fill;
use crate::scope::Scope;
use crate::search::Search;
use crate::separating::{alone, in_set, start_with};
use cedar_ast::{EntityUID, M, RestrictedExpr};
use cedar_types::{Attributes, EntityKind, EntityLUB, OpenTag, Type};
use std::alloc::Global;

/// A value that names a uid which isn't kept, and the uid.
#[derive(Drop)]
pub(crate) struct Naming {
    pub(crate) found: Found,
    pub(crate) uid: EntityUID,
}

/// Values of a record of which one names a uid that isn't kept, and the uid.
#[derive(Drop)]
pub(crate) struct NamingStart {
    pub(crate) start: Start,
    pub(crate) uid: EntityUID,
}

/// A uid of one of the entity types of a union that isn't kept, if there is one.
fn lost_of_union<'s, S: Scope>(scope: &'s S, lub: &EntityLUB) -> Option<&'s EntityUID>
    ensures none { result ≡ None → KeepsIds (S.ExistsInOld scope.now) (S.ExistsInNew scope.now)
        (union_of (lub_names lub.now)) }
    ensures of { IfSome result (λ uid. HasUid (uid_of uid.now) (union_of (lub_names lub.now))) }
    ensures lost { IfSome result (λ uid.
        IsLostUid (S.ExistsInOld scope.now) (S.ExistsInNew scope.now) (uid_of uid.now)) }
{
    for ty in lub.iter() {
        if let Some(uid) = scope.lost_of(ty) {
            return Some(uid);
        }
    }
    None
}

/// A uid of a kind of entities that isn't kept, if there is one.
fn lost_of_kind<'s, S: Scope>(scope: &'s S, kind: &EntityKind) -> Option<&'s EntityUID>
    ensures none { result ≡ None → KeepsIds (S.ExistsInOld scope.now) (S.ExistsInNew scope.now)
        (kind_ty kind.now) }
    ensures of { IfSome result (λ uid. HasUid (uid_of uid.now) (kind_ty kind.now)) }
    ensures lost { IfSome result (λ uid.
        IsLostUid (S.ExistsInOld scope.now) (S.ExistsInNew scope.now) (uid_of uid.now)) }
{
    match kind {
        EntityKind::AnyEntity => scope.lost(),
        EntityKind::Entity(lub) => lost_of_union(scope, lub),
    }
}

/// An expression of a uid.
fn uid_expr(uid: &EntityUID) -> M<RestrictedExpr>
    ensures { IfOk result (λ expr. tree_of expr ≡ uid_value (uid_of uid.now)) }
{
    Ok(RestrictedExpr::EntityUid(uid.clone()?))
}

/// An expression that names a uid, with no steps to it.
fn naming_here(alloc: Global, expr: RestrictedExpr, uid: &EntityUID) -> M<Naming>
    ensures { IfOk result (λ it. naming_of it ≡ record {
      found = record { value = tree_of expr; steps = [] };
      uid = uid_of uid.now;
    }) }
{
    let uid = uid.clone()?;
    let steps = Vec::new(alloc);
    let found = Found { expr, steps };
    Ok(Naming { found, uid })
}

/// An entity of a kind that isn't kept, if there is one.
fn naming_entity<S: Scope>(alloc: Global, scope: &S, kind: &EntityKind) -> M<Option<Naming>>
    ensures { IfOk result (λ found. (extensions : Extensions)
        → IsNamingAnswer extensions (S.ExistsInOld scope.now) (S.ExistsInNew scope.now)
        (kind_ty kind.now) (option_map naming_of found)) }
{
    match lost_of_kind(scope, kind) {
        Some(uid) => Ok(Some(naming_here(alloc, uid_expr(uid)?, uid)?)),
        None => Ok(None),
    }
}

/// A set of one entity that isn't kept, if there is one.
fn naming_any_set<S: Scope>(alloc: Global, scope: &S) -> M<Option<Naming>>
    ensures { IfOk result (λ found. (extensions : Extensions)
        → IsNamingAnswer extensions (S.ExistsInOld scope.now) (S.ExistsInNew scope.now)
        any_set (option_map naming_of found)) }
{
    match scope.lost() {
        Some(uid) => {
            let set = set_of_one(alloc, uid_expr(uid)?)?;
            Ok(Some(naming_here(alloc, set, uid)?))
        }
        None => Ok(None),
    }
}

/// The start of one value, which was found for the attribute of a name.
fn naming_with(alloc: Global, name: &String, naming: Naming) -> M<NamingStart>
    ensures { IfOk result (λ it. naming_start_of it ≡ record {
      start = start_through (string_bytes name.now) (naming_of naming).found;
      uid = (naming_of naming).uid;
    }) }
{
    let Naming { found, uid } = naming;
    let start = start_with(alloc, name, found)?;
    Ok(NamingStart { start, uid })
}

/// A start of a value of an open record with an entity that isn't kept under a name of its own, if
/// there is one.
fn naming_open<S: Scope>(
    alloc: Global,
    scope: &S,
    attrs: &Attributes,
    openness: OpenTag,
) -> M<Option<NamingStart>>
    ensures { IfOk result (λ found. (extensions : Extensions)
        → IsOpenAnswer extensions (S.ExistsInOld scope.now) (S.ExistsInNew scope.now)
        (fields_of attrs.now) openness (option_map naming_start_of found)) }
{
    let OpenTag::OpenAttributes = openness else {
        return Ok(None);
    };
    let Some(uid) = scope.lost() else {
        return Ok(None);
    };
    let values = alone(alloc, fresh_name(alloc, attrs)?, uid_expr(uid)?)?;
    let uid = uid.clone()?;
    let steps = Vec::new(alloc);
    let start = Start { values, steps };
    Ok(Some(NamingStart { start, uid }))
}

/// A start of a value of a record with an attribute that names a uid which isn't kept, if there is
/// one.
#[cycle(naming)]
fn naming_attribute<S: Scope>(
    search: &Search,
    scope: &S,
    attrs: &Attributes,
    openness: OpenTag,
) -> M<Option<NamingStart>>
    requires { AreSampledIn search.now (fields_of attrs.now) }
    ensures { IfOk result (λ found. IsNamingStartAnswer search.now.extensions.now
        (S.ExistsInOld scope.now) (S.ExistsInNew scope.now) (fields_of attrs.now) openness
        (option_map naming_start_of found)) }
{
    for (name, attribute) in attrs.iter() {
        let found = naming_value(search, scope, &attribute.attr_type)?;
        if let Some(naming) = found {
            return Ok(Some(naming_with(search.alloc, name, naming)?));
        }
    }
    Ok(None)
}

/// A start of a value of a record that names a uid which isn't kept, if there is one.
#[cycle(naming)]
fn naming_names<S: Scope>(
    search: &Search,
    scope: &S,
    attrs: &Attributes,
    openness: OpenTag,
) -> M<Option<NamingStart>>
    requires { AreSampledIn search.now (fields_of attrs.now) }
    ensures { IfOk result (λ found. IsNamingRecord search.now.extensions.now
        (S.ExistsInOld scope.now) (S.ExistsInNew scope.now) (fields_of attrs.now) openness
        (option_map naming_start_of found)) }
{
    let found = naming_attribute(search, scope, attrs, openness)?;
    if let Some(start) = found {
        return Ok(Some(start));
    }
    naming_open(search.alloc, scope, attrs, openness)
}

/// The values of a record with one that names a uid which isn't kept, if there is one: a start,
/// with samples of the attributes that it lacks.
#[cycle(naming)]
pub(crate) fn naming_attributes<S: Scope>(
    search: &Search,
    scope: &S,
    attrs: &Attributes,
    openness: OpenTag,
) -> M<Option<NamingStart>>
    requires { AreSampledIn search.now (fields_of attrs.now) }
    ensures { IfOk result (λ found. IsNamingAnswer search.now.extensions.now
        (S.ExistsInOld scope.now) (S.ExistsInNew scope.now)
        (record_of (fields_of attrs.now) openness) (option_map record_naming found)) }
{
    match naming_names(search, scope, attrs, openness)? {
        Some(NamingStart { start, uid }) => {
            let Start { values, steps } = start;
            let values = fill(search, values, attrs)?;
            let start = Start { values, steps };
            Ok(Some(NamingStart { start, uid }))
        }
        None => Ok(None),
    }
}

/// A record that names a uid which isn't kept, if there is one.
#[cycle(naming)]
fn naming_record<S: Scope>(
    search: &Search,
    scope: &S,
    attrs: &Attributes,
    openness: OpenTag,
) -> M<Option<Naming>>
    requires { AreSampledIn search.now (fields_of attrs.now) }
    ensures { IfOk result (λ found. IsNamingAnswer search.now.extensions.now
        (S.ExistsInOld scope.now) (S.ExistsInNew scope.now)
        (record_of (fields_of attrs.now) openness) (option_map naming_of found)) }
{
    match naming_attributes(search, scope, attrs, openness)? {
        Some(NamingStart { start, uid }) => {
            let Start { values, steps } = start;
            let expr = RestrictedExpr::Record(values);
            let found = Found { expr, steps };
            Ok(Some(Naming { found, uid }))
        }
        None => Ok(None),
    }
}

/// A set of one value that names a uid which isn't kept, if there is one.
#[cycle(naming)]
fn naming_set<S: Scope>(search: &Search, scope: &S, ty: &Type) -> M<Option<Naming>>
    requires { IsSampledIn search.now (ty_of ty.now) }
    ensures { IfOk result (λ found. IsNamingAnswer search.now.extensions.now
        (S.ExistsInOld scope.now) (S.ExistsInNew scope.now) (set_of (ty_of ty.now))
        (option_map naming_of found)) }
{
    match naming_value(search, scope, ty)? {
        Some(Naming { found, uid }) => {
            let found = in_set(search.alloc, found)?;
            Ok(Some(Naming { found, uid }))
        }
        None => Ok(None),
    }
}

/// A value of a type that names a uid which isn't kept, if there is one.
#[cycle(naming)]
pub(crate) fn naming_value<S: Scope>(search: &Search, scope: &S, ty: &Type) -> M<Option<Naming>>
    requires { IsSampledIn search.now (ty_of ty.now) }
    ensures { IfOk result (λ found. IsNamingAnswer search.now.extensions.now
        (S.ExistsInOld scope.now) (S.ExistsInNew scope.now) (ty_of ty.now)
        (option_map naming_of found)) }
{
    match ty {
        Type::Entity(kind) => naming_entity(search.alloc, scope, kind),
        Type::Set { element_type } => match element_type {
            Some(element) => naming_set(search, scope, element),
            None => naming_any_set(search.alloc, scope),
        },
        Type::Record {
            attrs,
            open_attributes,
        } => naming_record(search, scope, attrs, *open_attributes),
        _ => Ok(None),
    }
}
