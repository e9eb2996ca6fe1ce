//! What a bag of declarations says: its faults, and the schema that it declares.
//!
//! A bag is all that some fragments declare, whatever their split and order. The definitions stand
//! in `specs/` and need no code: what names stand for, what is ill-formed, and which schema is
//! declared. The code here is [`SchemaError`], one fault of a bag or out of memory, with its parts
//! [`UnsupportedFeature`] and [`ContextOrShape`].
#![tactic(auto)]

pub use schema_error::{ContextOrShape, SchemaError, UnsupportedFeature};

mod schema_error;
