//! Values that separate two types that share no parts.

ghost use Rattle.std.specs.Prelude.{◌≡◌, IfOk};
ghost use Rattle.std.specs.Option.{option_map};
ghost use Rattle.cedar_counterexample.specs.Words.{Extensions, Has, IsCounterexampleAnswer, IsSampledIn, IsValue, ShareNoParts, no_tree, set_value, tree, tree_of, ty_of};

use crate::samples::sample_of;
use crate::search::Search;
use crate::unions::{separating_entity, separating_truth};
use cedar_ast::{M, RestrictedExpr};
use cedar_types::Type;
use std::alloc::Global;

/// A value that a type hasn't.
pub(crate) fn other_value(alloc: Global, ty: &Type) -> RestrictedExpr
    ensures real { IsValue (tree_of result) }
    ensures lacks { (extensions : Extensions) → ¬ Has extensions (tree_of result) (ty_of ty.now) }
{
    match ty {
        Type::Bool(_) => RestrictedExpr::String(String::new(alloc)),
        _ => RestrictedExpr::Bool(true),
    }
}

/// The set of one value.
pub(crate) fn set_of_one(alloc: Global, value: RestrictedExpr) -> M<RestrictedExpr>
    ensures { IfOk result (λ set. tree_of set ≡ set_value (tree (tree_of value) no_tree)) }
{
    let mut values = Vec::with_capacity(alloc, 1)?;
    values.push(value)?;
    Ok(RestrictedExpr::Set(values))
}

/// An expression of a value that the one type has and the other hasn't, if there is one. The two
/// share no parts: not both are sets of elements, and not both are records.
pub(crate) fn separating_leaf(search: &Search, a: &Type, b: &Type) -> M<Option<RestrictedExpr>>
    requires sampled { IsSampledIn search.now (ty_of a.now) }
    requires leaves { ShareNoParts (ty_of a.now) (ty_of b.now) }
    ensures { IfOk result (λ found.
        IsCounterexampleAnswer search.now.extensions.now (ty_of a.now) (ty_of b.now)
        (option_map tree_of found)) }
{
    let alloc = search.alloc;
    match (a, b) {
        (Type::Bool(lower), Type::Bool(upper)) => {
            Ok(separating_truth(lower, upper).map(RestrictedExpr::Bool))
        }
        (Type::Long, Type::Long) => Ok(None),
        (Type::String, Type::String) => Ok(None),
        (Type::Entity(lower), Type::Entity(upper)) => separating_entity(alloc, lower, upper),
        (
            Type::Set {
                element_type: lower,
            },
            Type::Set {
                element_type: upper,
            },
        ) => match (lower, upper) {
            (_, None) => Ok(None),
            (None, Some(upper)) => Ok(Some(set_of_one(alloc, other_value(alloc, upper))?)),
            (Some(_), Some(_)) => unreachable!(),
        },
        (Type::Record { .. }, Type::Record { .. }) => unreachable!(),
        (Type::ExtensionType { name: lower }, Type::ExtensionType { name: upper }) => {
            if lower.is_same(upper) {
                Ok(None)
            } else {
                Ok(Some(sample_of(search, a)?))
            }
        }
        _ => Ok(Some(sample_of(search, a)?)),
    }
}
