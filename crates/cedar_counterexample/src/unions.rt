//! Values that separate truth values and entities.

ghost use Rattle.std.specs.Prelude.{◌≡◌, IfOk, IfSome, None, Contains};
ghost use Rattle.std.specs.Option.{option_map};
ghost use Rattle.cedar_counterexample.specs.Words.{Extensions, HasTruth, Included, IncludedByParts, IsCounterexampleAnswer, kind_ty, lub_names, tree_of, truth, type_name};

use crate::fresh::fresh_type;
use crate::samples::entity_of;
use cedar_ast::{EntityType, M, RestrictedExpr};
use cedar_types::{BoolType, EntityKind, EntityLUB};
use std::alloc::Global;

/// A truth value that is as the one says and not as the other does, if there is one.
pub(crate) fn separating_truth(lower: &BoolType, upper: &BoolType) -> Option<bool>
    ensures none { result ≡ None → IncludedByParts (truth lower.now) (truth upper.now) }
    ensures has { IfSome result (λ value. HasTruth value lower.now) }
    ensures lacks { IfSome result (λ value. ¬ HasTruth value upper.now) }
{
    match (lower, upper) {
        (_, BoolType::AnyBool) => None,
        (BoolType::True, BoolType::True) => None,
        (BoolType::False, BoolType::False) => None,
        (_, BoolType::True) => Some(false),
        (_, BoolType::False) => Some(true),
    }
}

/// The first entity type of the one union that isn't one of the other, if there is one.
fn separating_type<'l>(lower: &'l EntityLUB, upper: &EntityLUB) -> Option<&'l EntityType>
    ensures none { result ≡ None → Included (lub_names lower.now) (lub_names upper.now) }
    ensures has { IfSome result (λ ty. Contains (lub_names lower.now) (type_name ty.now)) }
    ensures lacks { IfSome result (λ ty. ¬ Contains (lub_names upper.now) (type_name ty.now)) }
{
    for ty in lower.iter() {
        if !upper.contains(ty) {
            return Some(ty);
        }
    }
    None
}

/// An entity of the one kind that isn't of the other, if there is one.
pub(crate) fn separating_entity(
    alloc: Global,
    lower: &EntityKind,
    upper: &EntityKind,
) -> M<Option<RestrictedExpr>>
    ensures { IfOk result (λ found. (extensions : Extensions)
        → IsCounterexampleAnswer extensions (kind_ty lower.now) (kind_ty upper.now)
        (option_map tree_of found)) }
{
    match (lower, upper) {
        (_, EntityKind::AnyEntity) => Ok(None),
        (EntityKind::AnyEntity, EntityKind::Entity(upper)) => {
            Ok(Some(entity_of(alloc, fresh_type(alloc, upper)?)))
        }
        (EntityKind::Entity(lower), EntityKind::Entity(upper)) => {
            match separating_type(lower, upper) {
                Some(ty) => Ok(Some(entity_of(alloc, ty.clone()?))),
                None => Ok(None),
            }
        }
    }
}
