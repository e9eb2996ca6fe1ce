//! Worked examples of what bags of declarations say, each as a function whose contract is the
//! example.
//!
//! [`examples`] has small bags and what is right or wrong with them, [`converted_back`] what can be
//! converted back and what can't, and [`existing`] what exists in a schema.
#![tactic(auto)]

pub mod converted_back;
pub mod examples;
pub mod existing;
