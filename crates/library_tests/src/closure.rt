//! Tests of the closure of edges over a small node type.

pub mod member;
#[cfg(test)]
mod ordering;
#[cfg(test)]
mod rows;
