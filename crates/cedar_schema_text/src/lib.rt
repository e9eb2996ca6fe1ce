//! Cedar's schema text, read as fragments (Cedar reference, "Schema format").
//!
//! [`fragment_from_text`] gives the fragment that a text stands for, with where each declaration
//! was written, or a [`TextFault`] with its place. [`fragment_of`] gives that of the members of a
//! text, or a [`MeaningFault`]: what is declared twice, what an `appliesTo` lacks, or a name that
//! is reserved.
#![tactic(auto)]

mod actions;
mod declared;
mod definition;
mod entity_types;
mod fault;
mod meaning;
mod names;
mod once;
mod text_reading;
pub mod theorems;
mod types;

pub use fault::{MeaningFault, Missing, Repeated, Twice};
pub use meaning::fragment_of;
pub use text_reading::{TextFault, fragment_from_text, fragment_from_text_slice};
