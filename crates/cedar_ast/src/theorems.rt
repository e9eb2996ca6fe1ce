//! Laws of the comparisons: what equality, order and hash say of names and uids; and what a name
//! is.

ghost use Rattle.std.specs.Prelude.{◌≡◌, ◌↔◌, IsTrue};
ghost use Rattle.std.specs.Cmp.{IsTotalOrder};
ghost use Rattle.std.specs.Str.{IsUtf8};
ghost use Rattle.cedar_ast.specs.Words.{IsName, IsOfIdentifiers, PlainName, PlainUid, eid_text, id_text, name_cmp, name_of, name_text, plain_name, text_cmp, type_name, uid_cmp, uid_of, uid_text, unreserved_id_text};

use crate::eid::Eid;
use crate::entity_type::EntityType;
use crate::entity_uid::EntityUID;
use crate::id::Id;
use crate::internal_name::InternalName;
use crate::name::Name;
use crate::unreserved_id::UnreservedId;
use std::cmp::Ordering;
use std::hash::Hash;

/// Identifiers are compared by their texts.
pub fn ids_compare_by_text()
    ensures equality { (a b : Id) → IsTrue (⟦<Id as PartialEq>⟧.eq a b) ↔ (id_text a ≡ id_text b) }
    ensures order { (a b : Id) → ⟦<Id as Ord>⟧.cmp a b ≡ text_cmp (id_text a) (id_text b) }
    ensures hash { (a b : Id) → id_text a ≡ id_text b
        → ⟦<Id as Hash>⟧.hash_input a ≡ ⟦<Id as Hash>⟧.hash_input b }
{}

/// Identifiers that aren't reserved are compared by their texts.
pub fn unreserved_ids_compare_by_text()
    ensures equality { (a b : UnreservedId)
        → IsTrue (⟦<UnreservedId as PartialEq>⟧.eq a b)
        ↔ (unreserved_id_text a ≡ unreserved_id_text b) }
    ensures order { (a b : UnreservedId)
        → ⟦<UnreservedId as Ord>⟧.cmp a b ≡ text_cmp (unreserved_id_text a) (unreserved_id_text b) }
    ensures hash { (a b : UnreservedId) → unreserved_id_text a ≡ unreserved_id_text b
        → ⟦<UnreservedId as Hash>⟧.hash_input a ≡ ⟦<UnreservedId as Hash>⟧.hash_input b }
{}

/// Entity ids are compared by their texts.
pub fn eids_compare_by_text()
    ensures equality { (a b : Eid)
        → IsTrue (⟦<Eid as PartialEq>⟧.eq a b) ↔ (eid_text a ≡ eid_text b) }
    ensures order { (a b : Eid) → ⟦<Eid as Ord>⟧.cmp a b ≡ text_cmp (eid_text a) (eid_text b) }
    ensures hash { (a b : Eid) → eid_text a ≡ eid_text b
        → ⟦<Eid as Hash>⟧.hash_input a ≡ ⟦<Eid as Hash>⟧.hash_input b }
{}

/// Names that may be reserved are compared by what they stand for, ignoring locations.
pub fn internal_names_compare_by_name()
    ensures equality { (a b : InternalName)
        → IsTrue (⟦<InternalName as PartialEq>⟧.eq a b) ↔ (name_of a ≡ name_of b) }
    ensures order { (a b : InternalName)
        → ⟦<InternalName as Ord>⟧.cmp a b ≡ name_cmp (name_of a) (name_of b) }
    ensures hash { (a b : InternalName) → name_of a ≡ name_of b
        → ⟦<InternalName as Hash>⟧.hash_input a ≡ ⟦<InternalName as Hash>⟧.hash_input b }
{}

/// Names are compared by what they stand for, ignoring locations.
pub fn names_compare_by_name()
    ensures equality { (a b : Name)
        → IsTrue (⟦<Name as PartialEq>⟧.eq a b) ↔ (plain_name a ≡ plain_name b) }
    ensures order { (a b : Name) → ⟦<Name as Ord>⟧.cmp a b
        ≡ name_cmp (plain_name a) (plain_name b) }
    ensures hash { (a b : Name) → plain_name a ≡ plain_name b
        → ⟦<Name as Hash>⟧.hash_input a ≡ ⟦<Name as Hash>⟧.hash_input b }
{}

/// Entity types are compared by their names, ignoring locations.
pub fn entity_types_compare_by_name()
    ensures equality { (a b : EntityType)
        → IsTrue (⟦<EntityType as PartialEq>⟧.eq a b) ↔ (type_name a ≡ type_name b) }
    ensures order { (a b : EntityType)
        → ⟦<EntityType as Ord>⟧.cmp a b ≡ name_cmp (type_name a) (type_name b) }
    ensures hash { (a b : EntityType) → type_name a ≡ type_name b
        → ⟦<EntityType as Hash>⟧.hash_input a ≡ ⟦<EntityType as Hash>⟧.hash_input b }
{}

/// Uids are compared by what they stand for, ignoring locations.
pub fn uids_compare_by_type_and_id()
    ensures equality { (a b : EntityUID)
        → IsTrue (⟦<EntityUID as PartialEq>⟧.eq a b) ↔ (uid_of a ≡ uid_of b) }
    ensures order { (a b : EntityUID)
        → ⟦<EntityUID as Ord>⟧.cmp a b ≡ uid_cmp (uid_of a) (uid_of b) }
    ensures hash { (a b : EntityUID) → uid_of a ≡ uid_of b
        → ⟦<EntityUID as Hash>⟧.hash_input a ≡ ⟦<EntityUID as Hash>⟧.hash_input b }
{}

/// Names are totally ordered, and only the same name ties with a name.
pub fn names_are_totally_ordered()
    ensures total { IsTotalOrder name_cmp }
    ensures same { (a b : PlainName) → (name_cmp a b ≡ Ordering.Equal) ↔ (a ≡ b) }
{}

/// Uids are totally ordered, and only the same uid ties with a uid.
pub fn uids_are_totally_ordered()
    ensures total { IsTotalOrder uid_cmp }
    ensures same { (a b : PlainUid) → (uid_cmp a b ≡ Ordering.Equal) ↔ (a ≡ b) }
{}

/// A name is known by its text: names that print alike are the same, ignoring locations.
pub fn names_are_known_by_their_text()
    ensures { (a b : InternalName) → name_text (name_of a) ≡ name_text (name_of b)
        → name_of a ≡ name_of b }
{}

/// A uid is known by its text: uids that print alike are the same, ignoring locations, whether or
/// not their types are reserved.
pub fn uids_are_known_by_their_text()
    ensures plain { (a b : PlainUid) → IsOfIdentifiers a.ty → IsOfIdentifiers b.ty → IsUtf8 a.eid
        → IsUtf8 b.eid
        → uid_text a ≡ uid_text b → a ≡ b }
    ensures uids { (a b : EntityUID) → uid_text (uid_of a) ≡ uid_text (uid_of b)
        → uid_of a ≡ uid_of b }
{}

/// What a name stands for isn't reserved, and its parts are identifiers.
pub fn names_are_of_identifiers(name: &Name)
    ensures { IsName (plain_name name.now) }
{}
