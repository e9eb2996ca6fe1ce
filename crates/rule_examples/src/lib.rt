//! Worked examples of the rules of types, each as a function whose contract is the example.
//!
//! [`subtyping_examples`] has those of subtyping, agreement and membership, and [`examples`] those
//! of bounds, helps, stated types, texts, core types and consistency.
#![tactic(auto)]

pub mod examples;
pub mod subtyping_examples;
