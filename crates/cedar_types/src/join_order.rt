//! Types, kinds of entities and unions, as what is ordered and can be joined.

ghost use Rattle.std.specs.Prelude.{◌≡◌};
ghost use Rattle.cedar_type_rules.proofs.AntisymmetryLaws.{Below-same};
ghost use Rattle.cedar_type_rules.proofs.JoinsOf as joins_of;
ghost use Rattle.cedar_types.specs.Words.{AnswersJoinOf, Below, IsClean, IsWellFormed-type, kind_formed, kind_ty, lub_formed, lub_ty, ty_of};

use crate::entity_kind::EntityKind;
use crate::entity_lub::EntityLUB;
use crate::join::join_unions;
use crate::subtype::union_fits;
use crate::types::Type;
use cedar_ast::ValidationMode;
use cedar_type_rules::{JoinError, JoinOrder};
use std::alloc::Global;

impl JoinOrder for Type {
    ghost below = { λ mode a b. Below mode (ty_of a) (ty_of b) };

    ghost join = { AnswersJoinOf ty_of };

    ghost is_clean = { λ a. IsClean (ty_of a) };

    ghost is_alike = { λ a b. ty_of a ≡ ty_of b };

    fn below(&self, other: &Type, mode: ValidationMode) -> bool {
        Type::is_subtype(self, other, mode)
    }

    fn join(&self, alloc: Global, other: &Type, mode: ValidationMode) -> Result<Type, JoinError> {
        Type::least_upper_bound(alloc, self, other, mode)
    }

    fn is_clean(&self) -> bool {
        self.is_without_any_set()
    }

    ghost alike_are_below = { joins_of.alike_below ty_of };

    ghost below_itself = { joins_of.below_itself ty_of };

    ghost below_onwards = { joins_of.below_onwards ty_of };

    ghost below_both_ways = { λ mode a b.
        Below-same mode (ty_of a) (ty_of b) (IsWellFormed-type a) (IsWellFormed-type b) };

    ghost join_is_above = { joins_of.join_above ty_of };

    ghost join_is_least = { joins_of.join_least ty_of };

    ghost join_is_clean = { joins_of.join_clean ty_of };

    ghost refused_has_none = { joins_of.refused_none ty_of };
}

impl JoinOrder for EntityKind {
    ghost below = { λ mode a b. Below mode (kind_ty a) (kind_ty b) };

    ghost join = { AnswersJoinOf kind_ty };

    ghost is_clean = { λ a. IsClean (kind_ty a) };

    ghost is_alike = { λ a b. kind_ty a ≡ kind_ty b };

    fn below(&self, other: &EntityKind, mode: ValidationMode) -> bool {
        self.is_subtype(other, mode)
    }

    fn join(
        &self,
        _alloc: Global,
        other: &EntityKind,
        mode: ValidationMode,
    ) -> Result<EntityKind, JoinError> {
        self.least_upper_bound(other, mode)
    }

    fn is_clean(&self) -> bool {
        true
    }

    ghost alike_are_below = { joins_of.alike_below kind_ty };

    ghost below_itself = { joins_of.below_itself kind_ty };

    ghost below_onwards = { joins_of.below_onwards kind_ty };

    ghost below_both_ways = { λ mode a b.
        Below-same mode (kind_ty a) (kind_ty b) (kind_formed a) (kind_formed b) };

    ghost join_is_above = { joins_of.join_above kind_ty };

    ghost join_is_least = { joins_of.join_least kind_ty };

    ghost join_is_clean = { joins_of.join_clean kind_ty };

    ghost refused_has_none = { joins_of.refused_none kind_ty };
}

impl JoinOrder for EntityLUB {
    ghost below = { λ mode a b. Below mode (lub_ty a) (lub_ty b) };

    ghost join = { AnswersJoinOf lub_ty };

    ghost is_clean = { λ a. IsClean (lub_ty a) };

    ghost is_alike = { λ a b. lub_ty a ≡ lub_ty b };

    fn below(&self, other: &EntityLUB, mode: ValidationMode) -> bool {
        union_fits(self, other, mode)
    }

    fn join(
        &self,
        _alloc: Global,
        other: &EntityLUB,
        mode: ValidationMode,
    ) -> Result<EntityLUB, JoinError> {
        join_unions(self, other, mode)
    }

    fn is_clean(&self) -> bool {
        true
    }

    ghost alike_are_below = { joins_of.alike_below lub_ty };

    ghost below_itself = { joins_of.below_itself lub_ty };

    ghost below_onwards = { joins_of.below_onwards lub_ty };

    ghost below_both_ways = { λ mode a b.
        Below-same mode (lub_ty a) (lub_ty b) (lub_formed a) (lub_formed b) };

    ghost join_is_above = { joins_of.join_above lub_ty };

    ghost join_is_least = { joins_of.join_least lub_ty };

    ghost join_is_clean = { joins_of.join_clean lub_ty };

    ghost refused_has_none = { joins_of.refused_none lub_ty };
}
