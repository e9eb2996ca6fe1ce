//! What a Cedar schema stands on: names, uids, values, core types, extensions and entities.
//!
//! An [`Id`] is an identifier, an [`InternalName`] a base name with a path before it, a [`Name`]
//! one that isn't reserved, an [`EntityType`] the name of an entity type, and an [`EntityUID`] such
//! a name with an id. `from_str` reads each of them from just the text that it prints as.
//! [`RestrictedExpr`] and [`Value`] are values, [`Entity`] and [`Entities`] are entities, and
//! [`Extensions`] has the extension types and functions that a schema may name. A call that may
//! need memory answers [`M`]: a value, or out of memory. A [`Loc`] is a place in a source text.
//! By [`QuickHash`] names and uids tell themselves to tables.
//! [`theorems`] has laws of how names and uids compare.
#![tactic(auto)]

pub use copying::{copied_entries, copied_items, copied_option};
pub use core_schema_type::{CoreAttributeType, CoreSchemaType};
pub use eid::Eid;
pub use entities::Entities;
pub use entity::Entity;
pub use entity_type::EntityType;
pub use entity_uid::EntityUID;
pub use extension::{ExtensionFunction, ExtensionFunctionLookupError, Extensions, ExtensionsFault};
pub use id::Id;
pub use internal_name::InternalName;
pub use loc::Loc;
pub use maps::put;
pub use maybe_shared::MaybeShared;
pub use memory::{M, Memory};
pub use name::Name;
pub use name_fault::NameFault;
pub use non_empty::NonEmpty;
pub use non_empty_iter::Iter as NonEmptyIter;
pub use quick_hash::QuickHash;
pub use quoted::Quoted;
pub use unreserved_id::UnreservedId;
pub use validation_mode::ValidationMode;
pub use value::{RestrictedExpr, Value};
pub use words::identifier;

mod copying;
mod core_schema_type;
mod eid;
mod entities;
mod entity;
mod entity_type;
mod entity_uid;
mod escape;
mod extension;
mod fits;
mod id;
mod internal_name;
mod leading;
mod loc;
mod maps;
mod maybe_shared;
mod memory;
mod name;
mod name_fault;
mod non_empty;
mod non_empty_iter;
mod quick_hash;
mod quoted;
mod reading;
pub mod theorems;
mod type_names;
mod unreserved_id;
mod validation_mode;
mod value;
mod value_copies;
mod with_leading;
mod words;
