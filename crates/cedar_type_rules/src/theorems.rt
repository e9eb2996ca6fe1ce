//! Laws of plain types: subtyping and the values that types have, joins, and core types.

ghost use Rattle.std.specs.Prelude.{◌↔◌, ◌≡◌};
ghost use Rattle.cedar_type_rules.specs.Words.{Agree, Below, CleanAreReducedInAnyOrder, CleanAreReducedToLeastClean, CleanBoundsAreOwn, CleanIsWithoutAnySet, ComparesBy, CoreIsLackedExactly, DisjointTypesShareNoValue, EmptyIsReducedToNever, Extensions, FeedsVariantFirst, Has, IncludedByParts, IsWellFormed, JoinsAreAnswered, JoinsAreBelowCleanBounds, JoinsAreCommutative, JoinsAreGivenExactly, JoinsAreUnique, JoinsOfCleanAreLeastClean, MayHave, OwnBoundsOfCleanAreClean, PartsTellInclusion, ReductionsAreAnswered, ReductionsAreUnique, ReductionsAreWellFormed, RefusalsAreOfTheFirst, StrictJoinsArePermissive, SubtypingIsInclusion, SubtypingIsInclusionAndNames, Tree, Ty, UpperTypesAreJoins, ValidationMode, openness_cmp, truth_cmp};
ghost use Rattle.cedar_ast.specs.declared.validation_mode.ValidationMode.TheVariants as mode;

use crate::bool_type::BoolType;
use crate::open_tag::OpenTag;
use std::hash::Hash;

/// Each type is below itself, in either mode.
pub fn subtyping_is_reflexive()
    ensures { (mode : ValidationMode) (ty : Ty) → Below mode ty ty }
{}

/// A type below one that is below a third is below the third, in either mode.
pub fn subtyping_is_transitive()
    ensures { (mode : ValidationMode) (a b c : Ty) → Below mode a b → Below mode b c
        → Below mode a c }
{}

/// Well-formed plain types that are below each other are the same, in either mode.
pub fn subtyping_is_antisymmetric()
    ensures { (mode : ValidationMode) (a b : Ty) → IsWellFormed a → IsWellFormed b
        → Below mode a b → Below mode b a → a ≡ b }
{}

/// What has a type has each type above it, in either mode.
pub fn supertypes_have_the_values()
    ensures has { (extensions : Extensions) (value : Tree) (mode : ValidationMode) (a b : Ty)
        → Has extensions value a → Below mode a b → Has extensions value b }
    ensures may_have { (extensions : Extensions) (value : Tree) (mode : ValidationMode) (a b : Ty)
        → MayHave extensions value a → Below mode a b → MayHave extensions value b }
{}

/// Strict subtyping of a well-formed plain type is permissive subtyping, and agreement.
pub fn strict_subtyping_is_permissive_and_agrees()
    ensures { (a b : Ty) → IsWellFormed a
        → Below mode.Strict a b ↔ (Below mode.Permissive a b × Agree a b) }
{}

/// On well-formed plain types, permissive subtyping is inclusion of values where both types are
/// stated; and where they are only inhabited throughout, it is inclusion of values and of names.
pub fn permissive_subtyping_is_inclusion()
    ensures stated { SubtypingIsInclusion }
    ensures with_optional { SubtypingIsInclusionAndNames }
{}

/// Inclusion of values follows from the parts of two well-formed plain types of which the first is
/// inhabited throughout; and what permissive subtyping allows is included.
pub fn parts_tell_inclusion_of_values()
    ensures inclusion { PartsTellInclusion }
    ensures subtyping { (a b : Ty) → Below mode.Permissive a b → IncludedByParts a b }
{}

/// A type is clean exactly where the any-set stands nowhere in it.
pub fn clean_types_are_without_the_any_set()
    ensures { CleanIsWithoutAnySet }
{}

/// Every clean bound of two types is an own bound, and of clean types every own bound is a clean
/// one.
pub fn clean_bounds_are_own_bounds()
    ensures own { CleanBoundsAreOwn }
    ensures clean { OwnBoundsOfCleanAreClean }
{}

/// Any two well-formed types have an answer of their join, and any list of them has one of joining
/// them in turn; what it gives is well formed too.
pub fn joins_are_answered()
    ensures of_two { JoinsAreAnswered }
    ensures pairwise { ReductionsAreAnswered }
{}

/// What follows for whatever answers a join of two types: it is given exactly where they have an
/// own bound, there is one at most, it is the upper where one is below the other, it is below each
/// clean bound and of clean types the least one, the types may be swapped, and a strict join is the
/// permissive one.
pub fn joins_are_least_bounds()
    ensures given { JoinsAreGivenExactly }
    ensures unique { JoinsAreUnique }
    ensures upper { UpperTypesAreJoins }
    ensures below { JoinsAreBelowCleanBounds }
    ensures of_clean { JoinsOfCleanAreLeastClean }
    ensures swapped { JoinsAreCommutative }
    ensures strict { StrictJoinsArePermissive }
{}

/// What follows for whatever folds types by joins from `Never`: of nothing it gives `Never`, and of
/// clean types their least clean bound, in whatever order.
pub fn reductions_are_least_bounds()
    ensures nothing { EmptyIsReducedToNever }
    ensures of_clean { CleanAreReducedToLeastClean }
    ensures any_order { CleanAreReducedInAnyOrder }
{}

/// What types are folded to by joins from `Never` is well formed, and their only answer; and where
/// they are refused, the help is one for what those before the first refused are joined to, and
/// that one.
pub fn reductions_are_folds_of_the_joins()
    ensures formed { ReductionsAreWellFormed }
    ensures unique { ReductionsAreUnique }
    ensures refused { RefusalsAreOfTheFirst }
{}

/// No value has two disjoint types.
pub fn disjoint_types_share_no_value()
    ensures { DisjointTypesShareNoValue }
{}

/// A type has no core type exactly where `Never`, any entity, or a union of other than one entity
/// type stands in it.
pub fn core_types_are_lacked_exactly()
    ensures { CoreIsLackedExactly }
{}

/// Equality, order and hash of what is known of a truth value, and of openness, go by the variants
/// in the order in which they are written.
pub fn truths_and_openness_compare_by_variant()
    ensures truths { ComparesBy (λ (known : BoolType). known) truth_cmp
        ⟦<BoolType as PartialEq>⟧.eq ⟦<BoolType as Ord>⟧.cmp ⟦<BoolType as Hash>⟧.hash_input }
    ensures openness { ComparesBy (λ (openness : OpenTag). openness) openness_cmp
        ⟦<OpenTag as PartialEq>⟧.eq ⟦<OpenTag as Ord>⟧.cmp ⟦<OpenTag as Hash>⟧.hash_input }
{}

/// The hash of what is known of a truth value, and of openness, is fed the variant first: unlike
/// values feed unlike first items.
pub fn truths_and_openness_feed_their_variant()
    ensures truths { FeedsVariantFirst
        (λ (known : BoolType). known) ⟦<BoolType as Hash>⟧.hash_input }
    ensures openness { FeedsVariantFirst
        (λ (openness : OpenTag). openness) ⟦<OpenTag as Hash>⟧.hash_input }
{}
