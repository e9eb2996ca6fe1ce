//! The check of a schema that was put together by hand.
//!
//! [`types_by_name`] and [`actions_by_uid`] put its parts under their names. [`validate`] closes
//! their descendants and gives the parts back ([`Parts`]), or a fault of them;
//! [`validate_copies`] does so with copies. [`copied_types`] and [`copied_actions`] copy parts.
//! [`theorems`] says that closing again is closing once.
#![tactic(auto)]

pub use copies::{copied_actions, copied_types};
pub use named::{actions_by_uid, types_by_name};
pub use parts::Parts;
pub use validating::{validate, validate_copies};

mod closing;
mod copies;
mod hierarchy;
mod known;
mod mentions;
mod named;
mod names;
mod parts;
mod request_types;
pub mod theorems;
mod validating;
