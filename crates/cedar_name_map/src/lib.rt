//! Values by name, in one sorted list.
//!
//! [`ByName`] is the list, and [`Entries`] and [`Names`] go over it in the order of the names. The
//! attributes of a record type stand in one, so a type may hold further types through it;
//! `specs/formers/` says how the list holds its values, as a recursive type needs.
#![tactic(auto)]

pub use by_name::ByName;
pub use iter::{Entries, Names};

mod by_name;
mod iter;
