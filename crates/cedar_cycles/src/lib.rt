//! Numbers that chains of targets lead back to.
//!
//! [`on_cycles`] tells of each number whether a chain of targets leads from it back to it.
//!
//! It goes through the numbers along their targets. Numbers that reach one another are grouped, and
//! once a group is gone through all of its numbers are on cycles or, alone without itself as a
//! target, the one number is on none.
#![tactic(auto)]

pub use search::on_cycles;

mod search;
