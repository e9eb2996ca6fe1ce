//! Tests of the libraries below `cedar_schema`: of names, values and fragments, of types, entity
//! types and actions, of the closure of edges, and of Cedar's JSON.
#![tactic(auto)]

#[cfg(test)]
mod asked;
pub mod closure;
#[cfg(test)]
mod fragments;
#[cfg(test)]
mod json;
#[cfg(test)]
mod types;
