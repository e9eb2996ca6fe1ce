//! Values of one type that another hasn't, between two versions of a schema.

ghost use Rattle.std.specs.Prelude.{◌≡◌, ◌↔◌, IfOk, IfSome, None};
ghost use Rattle.std.specs.Option.{option_map};
ghost use Rattle.cedar_counterexample.specs.Words.{AreInhabitedWith, AreSampledIn, EntriesAreExchanged, FieldsHaveUids, Has, HasUidsIn, IsBetweenAnswer, IsExchanged, IsInhabitedWith, IsOutsideBetween, IsSampledIn, IsValue, NamesOnly, OpenTag, StandsFor, ValuesIncluded, ValuesKept, attributes_between_of, between_of, entries_of, fields_of, map_value, record_of, shape_type, tree_of, ty_of, value_entries, value_tree, value_trees};

use crate::divergence::outside;
use crate::exchange::{Exchange, exchanged_entries, exchanged_value};
use crate::found::{Found, Outside, Start};
use crate::fresh::{longest_in, longest_in_attributes};
use crate::named::named_values;
use crate::naming::{Naming, NamingStart, naming_attributes, naming_value};
use crate::record_shape::RecordShape;
use crate::samples::fill;
use crate::sampling::sample_value;
use crate::scope::Scope;
use crate::search::Search;
use crate::separating::separating_values;
use crate::steps::{Step, turned};
use cedar_ast::{EntityUID, Extensions, M, RestrictedExpr, Value};
use cedar_types::{Attributes, Type};
use std::alloc::Global;
use std::collections::BTreeMap;

/// A value that one type of the old version has and another of the new hasn't, and why.
#[derive(Debug, Drop)]
pub struct OutsideBetween {
    /// The value. What it names exists in the old version.
    pub value: Value,
    /// The steps down both types to where they part as in `Outside`, or, where each value of the
    /// one is one of the other, down the first to where its values may name the lost uid.
    pub steps: Vec<Step>,
    /// A uid that the value names and that doesn't exist in the new version, where each value of
    /// the one type is one of the other.
    pub lost: Option<EntityUID>,
}

/// The values of a record that one record type of the old version has and another of the new
/// hasn't, by name, and why.
#[derive(Debug, Drop)]
pub struct AttributesOutsideBetween {
    /// The values, by name.
    pub attributes: BTreeMap<String, Value>,
    /// The steps, as in `OutsideBetween`.
    pub steps: Vec<Step>,
    /// The uid, as in `OutsideBetween`.
    pub lost: Option<EntityUID>,
}

/// A value whose uids are exchanged for such as exist in the old version.
fn existing<S: Scope>(alloc: Global, scope: &S, longest: usize, expr: &RestrictedExpr) -> M<Value>
    ensures { IfOk result (λ value. IsExchanged (StandsFor (S.ExistsInOld scope.now) longest)
        (tree_of expr.now) (value_tree value)) }
{
    let exchange = Exchange {
        alloc,
        scope,
        longest,
    };
    Ok(Value::new(exchanged_value(&exchange, expr)?))
}

/// The values of a record whose uids are exchanged for such as exist in the old version, by name.
fn existing_entries<S: Scope>(
    alloc: Global,
    scope: &S,
    longest: usize,
    exprs: &BTreeMap<String, RestrictedExpr>,
) -> M<BTreeMap<String, Value>>
    ensures { IfOk result (λ values. EntriesAreExchanged
        (StandsFor (S.ExistsInOld scope.now) longest)
        (entries_of exprs.now) (value_entries values)) }
{
    let exchange = Exchange {
        alloc,
        scope,
        longest,
    };
    let others = exchanged_entries(&exchange, exprs)?;
    named_values(alloc, others)
}

/// A value of a type that names a uid which isn't kept, if there is one.
fn naming_between<S: Scope>(
    search: &Search,
    scope: &S,
    a: &Type,
    b: &Type,
) -> M<Option<OutsideBetween>>
    requires sampled { IsSampledIn search.now (ty_of a.now) }
    requires uids { HasUidsIn (S.ExistsInOld scope.now) (ty_of a.now) }
    requires included { ValuesIncluded search.now.extensions.now (ty_of a.now) (ty_of b.now) }
    ensures { IfOk result (λ found. IsBetweenAnswer search.now.extensions.now
        (S.ExistsInOld scope.now) (S.ExistsInNew scope.now) (ty_of a.now) (ty_of b.now)
        (option_map between_of found)) }
{
    match naming_value(search, scope, a)? {
        Some(Naming { found, uid }) => {
            let Found { expr, steps } = found;
            let value = existing(search.alloc, scope, 0, &expr)?;
            let steps = turned(steps);
            let lost = Some(uid);
            Ok(Some(OutsideBetween { value, steps, lost }))
        }
        None => Ok(None),
    }
}

/// The same, where nothing is looked for unless some uid isn't kept.
fn lost_between<S: Scope>(
    search: &Search,
    scope: &S,
    a: &Type,
    b: &Type,
) -> M<Option<OutsideBetween>>
    requires sampled { IsSampledIn search.now (ty_of a.now) }
    requires uids { HasUidsIn (S.ExistsInOld scope.now) (ty_of a.now) }
    requires included { ValuesIncluded search.now.extensions.now (ty_of a.now) (ty_of b.now) }
    ensures { IfOk result (λ found. IsBetweenAnswer search.now.extensions.now
        (S.ExistsInOld scope.now) (S.ExistsInNew scope.now) (ty_of a.now) (ty_of b.now)
        (option_map between_of found)) }
{
    match scope.lost() {
        Some(_) => naming_between(search, scope, a, b),
        None => Ok(None),
    }
}

/// A value that a type of the old version has and names what exists there, and that a type of the
/// new hasn't or that names what doesn't exist there, with why, if there is one.
///
/// None is the answer exactly where each value of the first type that names what exists in the old
/// version is one of the second that names what exists in the new. The first has to be inhabited by
/// the samples (`Type::is_sampled`), and of each entity type in it a uid has to exist in the old
/// version. Where the types part whatever values name, the steps are those of `outside`; else they
/// lead down the first type to where its values may name the uid that is lost. Out of memory is the
/// only refusal.
pub fn outside_between<S: Scope>(
    alloc: Global,
    scope: &S,
    a: &Type,
    b: &Type,
    extensions: &Extensions,
    samples: &[Value],
) -> M<Option<OutsideBetween>>
    requires sampled { IsInhabitedWith extensions.now (value_trees samples.now) (ty_of a.now) }
    requires uids { HasUidsIn (S.ExistsInOld scope.now) (ty_of a.now) }
    ensures none { IfOk result (λ found. (found ≡ None) ↔ ValuesKept extensions.now
        (S.ExistsInOld scope.now) (S.ExistsInNew scope.now) (ty_of a.now) (ty_of b.now)) }
    ensures some { IfOk result (λ found. IfSome found (λ it. IsOutsideBetween extensions.now
        (S.ExistsInOld scope.now) (S.ExistsInNew scope.now) (ty_of a.now) (ty_of b.now)
        (between_of it))) }
{
    match outside(alloc, a, b, extensions, samples)? {
        Some(Outside { value, steps }) => {
            let value = existing(alloc, scope, longest_in(b), value.expr())?;
            let lost = None;
            Ok(Some(OutsideBetween { value, steps, lost }))
        }
        None => {
            let search = Search {
                alloc,
                extensions,
                samples,
            };
            lost_between(&search, scope, a, b)
        }
    }
}

/// The values of a record with an attribute that names a uid which isn't kept, if there is one.
fn naming_attributes_between<S: Scope>(
    search: &Search,
    scope: &S,
    a: RecordShape<'_>,
    b: RecordShape<'_>,
) -> M<Option<AttributesOutsideBetween>>
    requires sampled { AreSampledIn search.now (fields_of a.attributes.now) }
    requires uids { FieldsHaveUids (S.ExistsInOld scope.now) (fields_of a.attributes.now) }
    requires included { ValuesIncluded search.now.extensions.now (shape_type a) (shape_type b) }
    ensures { IfOk result (λ found. IsBetweenAnswer search.now.extensions.now
        (S.ExistsInOld scope.now) (S.ExistsInNew scope.now) (shape_type a.entry)
        (shape_type b.entry) (option_map attributes_between_of found)) }
{
    match naming_attributes(search, scope, a.attributes, a.openness)? {
        Some(NamingStart { start, uid }) => {
            let Start { values, steps } = start;
            let attributes = existing_entries(search.alloc, scope, 0, &values)?;
            let steps = turned(steps);
            Ok(Some(AttributesOutsideBetween {
                attributes,
                steps,
                lost: Some(uid),
            }))
        }
        None => Ok(None),
    }
}

/// The same, where nothing is looked for unless some uid isn't kept.
fn lost_attributes_between<S: Scope>(
    search: &Search,
    scope: &S,
    a: RecordShape<'_>,
    b: RecordShape<'_>,
) -> M<Option<AttributesOutsideBetween>>
    requires sampled { AreSampledIn search.now (fields_of a.attributes.now) }
    requires uids { FieldsHaveUids (S.ExistsInOld scope.now) (fields_of a.attributes.now) }
    requires included { ValuesIncluded search.now.extensions.now (shape_type a) (shape_type b) }
    ensures { IfOk result (λ found. IsBetweenAnswer search.now.extensions.now
        (S.ExistsInOld scope.now) (S.ExistsInNew scope.now) (shape_type a.entry)
        (shape_type b.entry) (option_map attributes_between_of found)) }
{
    match scope.lost() {
        Some(_) => naming_attributes_between(search, scope, a, b),
        None => Ok(None),
    }
}

/// The values of a record that the one record type of the old version has and the other of the new
/// hasn't, by name, with why, if there is one.
///
/// It answers what `outside_between` does of the record types of these shapes, and owes the same of
/// the types of the attributes of the first. Out of memory is the only refusal.
pub fn attributes_outside_between<S: Scope>(
    alloc: Global,
    scope: &S,
    a: RecordShape<'_>,
    b: RecordShape<'_>,
    extensions: &Extensions,
    samples: &[Value],
) -> M<Option<AttributesOutsideBetween>>
    requires sampled { AreInhabitedWith extensions.now (value_trees samples.now)
        (fields_of a.attributes.now) }
    requires uids { FieldsHaveUids (S.ExistsInOld scope.now) (fields_of a.attributes.now) }
    ensures none { IfOk result (λ found. (found ≡ None) ↔ ValuesKept extensions.now
        (S.ExistsInOld scope.now) (S.ExistsInNew scope.now) (shape_type a.entry)
        (shape_type b.entry)) }
    ensures some { IfOk result (λ found. IfSome found (λ it. IsOutsideBetween extensions.now
        (S.ExistsInOld scope.now) (S.ExistsInNew scope.now) (shape_type a.entry)
        (shape_type b.entry) (attributes_between_of it))) }
{
    let search = Search {
        alloc,
        extensions,
        samples,
    };
    match separating_values(&search, a.attributes, a.openness, b.attributes, b.openness)? {
        Some(Start { values, steps }) => {
            let longest = longest_in_attributes(b.attributes);
            let attributes = existing_entries(alloc, scope, longest, &values)?;
            let steps = turned(steps);
            let lost = None;
            Ok(Some(AttributesOutsideBetween {
                attributes,
                steps,
                lost,
            }))
        }
        None => lost_attributes_between(&search, scope, a, b),
    }
}

/// A value of a type that names what exists in the old version.
///
/// It is that of `sample_value` but for the ids, and owes besides that of each entity type in the
/// type a uid exists there. Out of memory is the only refusal.
pub fn existing_value<S: Scope>(
    alloc: Global,
    scope: &S,
    ty: &Type,
    extensions: &Extensions,
    samples: &[Value],
) -> M<Value>
    requires sampled { IsInhabitedWith extensions.now (value_trees samples.now) (ty_of ty.now) }
    requires uids { HasUidsIn (S.ExistsInOld scope.now) (ty_of ty.now) }
    ensures real { IfOk result (λ value. IsValue (value_tree value)) }
    ensures has { IfOk result (λ value. Has extensions.now (value_tree value) (ty_of ty.now)) }
    ensures exists { IfOk result (λ value.
        NamesOnly (S.ExistsInOld scope.now) (value_tree value)) }
{
    let sample = sample_value(alloc, ty, extensions, samples)?;
    existing(alloc, scope, 0, sample.expr())
}

/// The values of a record with some attributes, by name, which name what exists in the old version:
/// one for each required attribute, as `existing_value` gives it. Out of memory is the only
/// refusal.
pub fn existing_attributes<S: Scope>(
    alloc: Global,
    scope: &S,
    attrs: &Attributes,
    extensions: &Extensions,
    samples: &[Value],
) -> M<BTreeMap<String, Value>>
    requires sampled { AreInhabitedWith extensions.now (value_trees samples.now)
        (fields_of attrs.now) }
    requires uids { FieldsHaveUids (S.ExistsInOld scope.now) (fields_of attrs.now) }
    ensures real { IfOk result (λ values. IsValue (map_value (value_entries values))) }
    ensures has { IfOk result (λ values. (openness : OpenTag)
        → Has extensions.now (map_value (value_entries values))
        (record_of (fields_of attrs.now) openness)) }
    ensures exists { IfOk result (λ values.
        NamesOnly (S.ExistsInOld scope.now) (map_value (value_entries values))) }
{
    let search = Search {
        alloc,
        extensions,
        samples,
    };
    let values = fill(&search, BTreeMap::new(alloc), attrs)?;
    existing_entries(alloc, scope, 0, &values)
}
