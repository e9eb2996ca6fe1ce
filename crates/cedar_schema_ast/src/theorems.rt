//! Laws of the comparisons: what equality, order and hash say of the names in a schema fragment.

ghost use Rattle.std.specs.Prelude.{◌≡◌, ◌↔◌, IsTrue};
ghost use Rattle.std.specs.Cmp.Lexicographic.{slice_cmp};
ghost use Rattle.std.specs.Ordering.{nat_cmp};
ghost use Rattle.cedar_schema_ast.specs.Words.{FeedsVariantFirst, ReferenceType, common_type_text, possibilities_of, raw_name, reference_type_of};

use crate::json_schema::{CommonTypeId, ConditionalName, RawName, ReferenceType};
use std::hash::Hash;

/// Base names of common types are compared by their texts.
pub fn common_type_ids_compare_by_text()
    ensures equality { (a b : CommonTypeId) → IsTrue (⟦<CommonTypeId as PartialEq>⟧.eq a b)
        ↔ (common_type_text a ≡ common_type_text b) }
    ensures order { (a b : CommonTypeId) → ⟦<CommonTypeId as Ord>⟧.cmp a b
        ≡ slice_cmp nat_cmp (common_type_text a) (common_type_text b) }
    ensures hash { (a b : CommonTypeId) → common_type_text a ≡ common_type_text b
        → ⟦<CommonTypeId as Hash>⟧.hash_input a ≡ ⟦<CommonTypeId as Hash>⟧.hash_input b }
{}

/// Raw names are compared by what they stand for, ignoring locations.
pub fn raw_names_compare_by_name()
    ensures equality { (a b : RawName) → IsTrue (⟦<RawName as PartialEq>⟧.eq a b)
        ↔ (raw_name a ≡ raw_name b) }
    ensures hash { (a b : RawName) → raw_name a ≡ raw_name b
        → ⟦<RawName as Hash>⟧.hash_input a ≡ ⟦<RawName as Hash>⟧.hash_input b }
{}

/// Conditional names are compared by their possibilities in order and their reference type,
/// ignoring locations.
pub fn conditional_names_compare_by_possibilities()
    ensures equality { (a b : ConditionalName) → IsTrue (⟦<ConditionalName as PartialEq>⟧.eq a b)
        ↔ ((possibilities_of a ≡ possibilities_of b)
        × (reference_type_of a ≡ reference_type_of b)) }
    ensures hash { (a b : ConditionalName) → possibilities_of a ≡ possibilities_of b
        → reference_type_of a ≡ reference_type_of b
        → ⟦<ConditionalName as Hash>⟧.hash_input a ≡ ⟦<ConditionalName as Hash>⟧.hash_input b }
{}

/// The hash of a reference type is fed the variant: unlike reference types feed unlike first items.
pub fn reference_types_feed_their_variant()
    ensures { FeedsVariantFirst (λ (kind : ReferenceType).
        kind) ⟦<ReferenceType as Hash>⟧.hash_input }
{}
