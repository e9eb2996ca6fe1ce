//! Reading, a token at a time.

mod actions;
mod entities;
mod names;
pub(crate) mod schema;
mod types;
