//! Rows of Cedar's JSON schema format: what is refused where, and what is written.

mod locations;
mod no_json;
mod refusals;
mod table;
mod written;
