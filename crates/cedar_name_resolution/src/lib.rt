//! The names that are defined, and what the names that are written resolve to, whatever declares
//! them.
//!
//! [`defs`] has the names that are declared, the check that none of them shadows another (Cedar's
//! RFC 70), and what a reference resolves to. [`defined_names`] gives all names that references are
//! looked up among: the declared ones, the built-in types with their aliases, and the types of
//! actions. There it is decided that an alias stands only where no type of its name is declared
//! (Cedar's RFC 24). [`Written`] is what is declared, with the namespace that its names are written
//! in, and [`full_name`] has the full names of what is declared in a namespace.
#![tactic(auto)]

pub use defined::{DefinedNames, defined_names};
pub use defs::written_name::resolve_within;
pub use written::{DeclaredCommonType, Written};

mod built_in;
mod defined;
pub mod defs;
pub mod full_name;
mod written;
