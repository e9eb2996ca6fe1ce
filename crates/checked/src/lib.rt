//! What the tests of several crates share: what they say of an answer that isn't the expected one,
//! fragments of Cedar's schema text, names that texts spell, and the sample extension.
#![tactic(auto)]

pub use answers::{holds, on_one_line, one_of, same};
pub use extensions::sample_extensions;
pub use fragments::{fragment_of, fragments_of};

mod answers;
mod extensions;
mod fragments;
pub mod names;
