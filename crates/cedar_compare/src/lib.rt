//! Two versions of a schema, compared: what the new one takes away and what it adds.
//!
//! [`compare`] gives a [`Comparison`]. Each [`Difference`] is of an entity type, an action or an
//! environment, with an entity or a request that only the one version admits, and a [`Cause`].
//! [`CompareFault`] says why two schemas aren't compared. [`theorems`] has laws of what a new
//! version keeps, and [`examples`] worked examples.
#![tactic(auto)]

pub use compare_fault::{CompareFault, Version};
pub use comparing::{Comparison, compare};
pub use difference::{Cause, Difference, Part, Request};

mod action_ancestors;
mod actions;
mod ancestors;
mod bare;
mod choices;
mod compare_fault;
mod comparing;
mod difference;
mod entity_types;
pub mod examples;
mod existing;
mod fresh;
mod keeping;
mod looking_up;
mod losses;
mod lost_uids;
mod requests;
mod scope;
pub mod theorems;
mod versions;
