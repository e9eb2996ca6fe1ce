//! Tests of names and values, of fragments and their copies, of the names that they declare and
//! define, of what references resolve to, and of common types that are elaborated.

mod common;
pub(crate) mod copies;
mod defined;
mod entities;
mod given;
mod names;
pub(crate) mod nested;
mod qualified;
mod resolution;
pub(crate) mod shown;
