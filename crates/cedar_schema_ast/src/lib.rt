//! Schema fragments as plain data, and the forms of the names in them.
//!
//! [`json_schema`] has the fragments: namespaces with their common types, entity types and actions.
//! A name in them is raw as it was written ([`json_schema::RawName`]), and then conditional: it
//! lists the full names that it may stand for ([`json_schema::ConditionalName`]). [`below`] is the
//! crate `cedar_ast`, and [`theorems`] has laws of how names compare.
#![tactic(auto)]

pub use cedar_ast as below;

pub mod json_schema;
pub mod theorems;
