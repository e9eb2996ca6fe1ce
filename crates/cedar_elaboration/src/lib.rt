//! Types that are written in namespaces, elaborated as types of the validator.
//!
//! [`elaborate`] takes one type, with what is in scope ([`TypeScope`]): a reference to a common
//! type becomes what that one was elaborated as. [`common_types`] elaborates common types, each
//! once and after those that it refers to. [`defined_common_types`] is a step of the builder, and
//! takes the declared common types with the built-in ones and their aliases. [`name_indices`] gives
//! the common types indices, and [`all_targets`] those of the ones that each refers to.
#![tactic(auto)]

pub use common::common_types;
pub use defined::defined_common_types;
pub use elaborating::{elaborate, undefined_type};
pub use indices::{Indices, name_indices};
pub use ordering::all_targets;
pub use shared_types::SharedTypes;
pub use type_scope::{TypeScope, may_name_common};

mod common;
mod defined;
mod elaborating;
mod indices;
mod ordering;
mod referring;
mod shared_types;
mod type_scope;
