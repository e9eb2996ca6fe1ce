//! Cedar's schema text, laid out (Cedar reference, "Schema format").
//!
//! [`lay_out`] gives a text its line breaks and indents: a declaration, an attribute and a part of
//! an `appliesTo` begins a line, lists stand in brackets on one line, and a comma stands behind each
//! attribute and each part. Comments and annotations stay where they stand.
#![tactic(auto)]

mod edited;
mod laying_out;
mod printing;
mod relaying;
mod scope;
mod separator;

pub use laying_out::lay_out;
