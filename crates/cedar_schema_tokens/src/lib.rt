//! The tokens of Cedar's schema text (Cedar reference, "Schema format").
//!
//! A text is ids, quoted texts and symbols, with white space and comments between them. [`read`]
//! gives all of its [`Token`]s, each with its place, or a [`TokenFault`]: a character, a quote or
//! an escape that is part of no token, and where it stands. [`read_spelled`] gives the comments too, and
//! all as they are spelled.
#![tactic(auto)]

mod escape;
mod fault;
mod gap;
mod reading;
mod spelled;
mod steps;
mod symbol;
mod token;

pub use fault::TokenFault;
pub use reading::{one_reading, read};
pub use spelled::{Spelled, SpelledKind, read_spelled, what_is_spelled_is_read};
pub use token::{Lexeme, Symbol, Token};
