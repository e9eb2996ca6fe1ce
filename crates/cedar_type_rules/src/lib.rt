//! The rules of the validator's types, and their laws.
//!
//! The rules are definitions over plain types, in `specs/`: subtyping, membership of values,
//! bounds, joins, printed texts and core types. [`theorems`] has their laws. The code here is what
//! needs no type: [`BoolType`] and [`OpenTag`], which are parts of types, [`JoinError`],
//! [`LubHelp`] and [`CoreTypeFault`], which are refusals, and [`JoinOrder`], the trait of what has
//! joins, with [`reduce`], which folds values by them.
#![tactic(auto)]

pub use bool_type::BoolType;
pub use core_type_fault::CoreTypeFault;
pub use join_error::{JoinError, LubHelp};
pub use join_order::{JoinOrder, reduce};
pub use open_tag::OpenTag;

mod bool_type;
mod core_type_fault;
mod join_error;
mod join_order;
mod open_tag;
pub mod theorems;
