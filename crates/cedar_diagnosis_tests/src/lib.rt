//! Tests of all faults of fragments at once, over Cedar's schema text.
#![tactic(auto)]

#[cfg(test)]
mod told;
