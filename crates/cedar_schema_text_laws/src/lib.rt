//! A fragment that goes through Cedar's schema text comes back as its text form.
#![tactic(auto)]

pub mod round_trip;
mod sayable;
pub mod theorems;
