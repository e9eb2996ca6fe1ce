//! The names that are defined, and what references resolve to.
//!
//! [`AllDefs`] has the sets of the names; whether one shadows another is decided here too, as
//! Cedar's RFC 70 has it ([`AllDefs::rfc_70_shadowing_checks`]). What declares names
//! ([`DeclaresNames`]) lists them ([`NameLists`]).

pub use all_defs::AllDefs;
pub use name_lists::{DeclaresNames, NameLists};
pub use resolve::{ResolveName, resolve_all};
pub use written_name::WrittenName;

mod all_defs;
mod name_lists;
mod names;
mod resolve;
mod shadowing;
pub(crate) mod written_name;
