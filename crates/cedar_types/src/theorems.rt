//! Laws of types: well-formedness, subtyping, joins, and comparisons.

ghost use Rattle.std.specs.Prelude.{◌≡◌, ◌≢◌, ◌↔◌, [], ◌∷◌, map, Result, Ok, Err, IsOkAnd};
ghost use Rattle.std.specs.List.{AllByRecursion};
ghost use Rattle.cedar_types.specs.Words.{Agree, AreTexts, AreWellFormed, Attributes, Below, ComparesBy, EntityKind, FeedsVariantFirst, Included, IsAnswerOrMemory, IsClean, IsCleanBound, IsJoinAnswer, IsLeastAnswer, IsLeastOwnBound, IsReduceAnswer, IsSortedByName, IsWellFormed, JoinAnswer, JoinError, SubtypingIsInclusionAndNamesOf, SubtypingIsInclusionOf, «Type», ValidationMode, attribute_cmp, attribute_of, field_names, fields_cmp, fields_of, is_of_union, kind_rank, kind_ty, lub_names, never, ty_cmp, ty_of, union_cmp};
ghost use Rattle.cedar_ast.specs.declared.validation_mode.ValidationMode.TheVariants as mode;
ghost use Rattle.cedar_type_rules.specs.declared.join_error.JoinError.TheVariants as error;

use crate::attributes::{AttributeType, Attributes};
use crate::entity_kind::EntityKind;
use crate::entity_lub::EntityLUB;
use crate::types::Type;
use std::hash::Hash;

/// Each kind of entities and each type stands for a well-formed plain type; and the attributes of
/// each record have sorted names, which are texts, and stand for well-formed plain types.
pub fn types_are_well_formed()
    ensures kinds { (kind : EntityKind) → IsWellFormed (kind_ty kind) }
    ensures types { (ty : «Type») → IsWellFormed (ty_of ty) }
    ensures sorted_by_name { (attributes : Attributes) → IsSortedByName (fields_of attributes) }
    ensures attributes { (attributes : Attributes) → AreWellFormed (fields_of attributes) }
    ensures texts { (attributes : Attributes) → AreTexts (field_names (fields_of attributes)) }
{}

/// Types that are below each other stand for the same plain type, in either mode.
pub fn subtyping_of_types_is_antisymmetric(a: &Type, b: &Type)
    ensures { (mode : ValidationMode) → Below mode (ty_of a.now) (ty_of b.now)
        → Below mode (ty_of b.now) (ty_of a.now)
        → ty_of a.now ≡ ty_of b.now }
{}

/// Strict subtyping of types is permissive subtyping, and agreement.
pub fn strict_subtyping_of_types_is_permissive_and_agrees(a: &Type, b: &Type)
    ensures { Below mode.Strict (ty_of a.now) (ty_of b.now)
        ↔ (Below mode.Permissive (ty_of a.now) (ty_of b.now) × Agree (ty_of a.now) (ty_of b.now)) }
{}

/// On types, permissive subtyping is inclusion of values where both are stated; and where they are
/// only inhabited throughout, it is inclusion of values and of names.
pub fn permissive_subtyping_of_types_is_inclusion(a: &Type, b: &Type)
    ensures stated { SubtypingIsInclusionOf (ty_of a.now) (ty_of b.now) }
    ensures with_optional { SubtypingIsInclusionAndNamesOf (ty_of a.now) (ty_of b.now) }
{}

/// What follows for whatever answers the join of two types: it stands for the least clean bound of
/// clean types, two joins stand for the same, the types may be swapped, and a strict join is the
/// permissive one.
pub fn joins_of_types_are_least_bounds(a: &Type, b: &Type)
    ensures of_clean { (mode : ValidationMode) (answer : JoinAnswer) → IsClean (ty_of a.now)
        → IsClean (ty_of b.now)
        → IsJoinAnswer mode (ty_of a.now) (ty_of b.now) answer
        → IsLeastAnswer mode (IsCleanBound mode (ty_of a.now ∷ ty_of b.now ∷ [])) answer }
    ensures unique { (mode : ValidationMode) (join other : «Type»)
        → IsLeastOwnBound mode (ty_of a.now) (ty_of b.now) (ty_of join)
        → IsLeastOwnBound mode (ty_of a.now) (ty_of b.now) (ty_of other)
        → ty_of join ≡ ty_of other }
    ensures swapped { (mode : ValidationMode) (join : «Type»)
        → IsLeastOwnBound mode (ty_of a.now) (ty_of b.now) (ty_of join)
        → IsLeastOwnBound mode (ty_of b.now) (ty_of a.now) (ty_of join) }
    ensures strict { (join : «Type»)
        → IsLeastOwnBound mode.Strict (ty_of a.now) (ty_of b.now) (ty_of join)
        → IsLeastOwnBound mode.Permissive (ty_of a.now) (ty_of b.now) (ty_of join) }
{}

/// What follows for whatever folds types by joins from `Never`: of clean types it gives their least
/// clean bound, and where it gives a type, it gives one that stands for the same in whatever order.
pub fn reductions_of_types_are_least_bounds(types: &[Type], others: &[Type])
    ensures of_clean { (mode : ValidationMode) (answer : JoinAnswer)
        → AllByRecursion IsClean (map ty_of types.now)
        → IsReduceAnswer mode never (map ty_of types.now) answer
        → IsLeastAnswer mode (IsCleanBound mode (map ty_of types.now)) answer }
    ensures any_order { (mode : ValidationMode) (join : «Type») (answer : Result «Type» JoinError)
        → AllByRecursion IsClean (map ty_of types.now)
        → Included (map ty_of types.now) (map ty_of others.now)
        → Included (map ty_of others.now) (map ty_of types.now)
        → IsReduceAnswer mode never (map ty_of types.now) (Ok (ty_of join))
        → IsAnswerOrMemory ty_of (IsReduceAnswer mode never (map ty_of others.now)) answer
        → answer ≢ Err error.Memory → IsOkAnd answer (λ other. ty_of other ≡ ty_of join) }
{}

/// Equality, order and hash of unions and of kinds of entities go by what they stand for.
pub fn entity_kinds_compare_by_what_they_stand_for()
    ensures unions { ComparesBy lub_names union_cmp
        ⟦<EntityLUB as PartialEq>⟧.eq ⟦<EntityLUB as Ord>⟧.cmp ⟦<EntityLUB as Hash>⟧.hash_input }
    ensures kinds { ComparesBy kind_ty ty_cmp
        ⟦<EntityKind as PartialEq>⟧.eq ⟦<EntityKind as Ord>⟧.cmp ⟦<EntityKind as Hash>⟧.hash_input }
{}

/// Equality, order and hash of types, of attributes and of one attribute go by what they stand for,
/// ignoring locations: types by kind in the order in which the variants are written, and then by
/// their parts in turn.
pub fn types_compare_by_what_they_stand_for()
    ensures types { ComparesBy ty_of ty_cmp
        ⟦<Type as PartialEq>⟧.eq ⟦<Type as Ord>⟧.cmp ⟦<Type as Hash>⟧.hash_input }
    ensures attributes { ComparesBy fields_of fields_cmp
        ⟦<Attributes as PartialEq>⟧.eq ⟦<Attributes as Ord>⟧.cmp ⟦<Attributes as Hash>⟧.hash_input }
    ensures attribute { ComparesBy attribute_of attribute_cmp
        ⟦<AttributeType as PartialEq>⟧.eq ⟦<AttributeType as Ord>⟧.cmp
        ⟦<AttributeType as Hash>⟧.hash_input }
{}

/// The hash of a kind of entities is fed the variant first: any entity and a union feed unlike
/// first items.
pub fn entity_kinds_feed_their_variant()
    ensures { FeedsVariantFirst is_of_union ⟦<EntityKind as Hash>⟧.hash_input }
{}

/// The hash of a type is fed the variant first: types of unlike variants feed unlike first items.
pub fn types_feed_their_variant()
    ensures { FeedsVariantFirst (λ (ty : «Type»).
        kind_rank (ty_of ty)) ⟦<Type as Hash>⟧.hash_input }
{}
