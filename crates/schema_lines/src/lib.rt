//! Schemas as sorted lines of text, for programs and tests; and what the program `schema_show` does
//! with its words: built-in cases as such lines, joins of some types, and whether a value separates
//! two of them.
//!
//! [`lines_of`] gives the lines: one for each entity type, attribute, descendant, action and
//! environment. [`escaped_lines_of`] gives them safe to be shown on a terminal, with names that can
//! be taken for nothing else ([`push_name`], [`push_type`], [`is_hidden`]). [`run`] is
//! `schema_show` over any two writers, and answers its status.
#![tactic(auto)]

pub use hidden::{escaped, is_hidden};
pub use lines::{escaped_lines_of, lines_of, uid_text};
pub use outcome::{run, unread};
pub use spelled::{push_name, push_type};

mod cases;
mod command;
mod hidden;
mod joined;
mod lines;
mod names;
mod outcome;
mod spelled;
