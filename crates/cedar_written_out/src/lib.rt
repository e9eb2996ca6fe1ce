//! How deep and how large types are once common types are written out.
//!
//! [`written_out`] tells of each type that fragments declare ([`DeclaredType`]) how deep and how
//! large it is once the common types that it refers to stand in their places ([`Figure`]). None is
//! written out for that: each common type is measured once, after those that it refers to.
//! [`theorems`] has laws of these numbers.
#![tactic(auto)]

pub use figure::Figure;
pub use listing::{DeclaredType, Measured};
pub use written::written_out;

mod common;
mod figure;
mod gathering;
mod listing;
mod measuring;
pub mod theorems;
mod written;
