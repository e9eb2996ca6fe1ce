//! What the program `cedar_check` does: files of schemas are read, built, shown, drawn, linked,
//! laid out and compared.
//!
//! [`run`] does it over any files ([`FileAccess`]) and any two writers, and answers the status.
#![tactic(auto)]

mod answers;
mod asked_for;
mod attribute_types;
mod building;
mod cause_text;
mod cedar_syntax;
mod commands;
mod comparing;
mod difference_json;
mod difference_lines;
mod fault_text;
mod file_format;
mod files;
mod finding;
mod first_key;
mod graph;
mod hierarchy;
mod json_lines;
mod laying_out;
mod layout;
mod left_out;
mod limits;
mod linking;
mod outcome;
mod position;
mod read_fault;
mod reading;
mod repeating;
mod running;
mod shape;
mod shown_text;
mod sides;
mod slip;
mod status;
mod steps;
mod text;
mod text_fault;
mod text_left_out;
mod translating;
mod unwritable;
mod walk;
mod witness;
mod words;

pub use files::{FileAccess, FileFault};
pub use running::{run, unread};
