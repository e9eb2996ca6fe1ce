//! What is found for two types: a value of the one alone, and the steps to where they part.

use crate::steps::Step;
use cedar_ast::{RestrictedExpr, Value};
use std::collections::BTreeMap;

/// A value that one type has and another hasn't, and where the two types part.
#[derive(Debug, Drop)]
pub struct Outside {
    /// The value.
    pub value: Value,
    /// The steps down both types to the innermost part whose values aren't included, or to an
    /// attribute that only one of two records requires or has.
    pub steps: Vec<Step>,
}

/// The values of a record that one record type has and another hasn't, by name, and where the two
/// types part.
#[derive(Debug, Drop)]
pub struct AttributesOutside {
    /// The values, by name.
    pub attributes: BTreeMap<String, Value>,
    /// The steps down both types, as in `Outside`.
    pub steps: Vec<Step>,
}

/// An expression of a value that one type has and another hasn't, and the steps to where the two
/// types part, the last one first.
#[derive(Drop)]
pub(crate) struct Found {
    pub(crate) expr: RestrictedExpr,
    pub(crate) steps: Vec<Step>,
}

/// Values of a record, by name, and the steps to where two record types part, the last one first.
#[derive(Drop)]
pub(crate) struct Start {
    pub(crate) values: BTreeMap<String, RestrictedExpr>,
    pub(crate) steps: Vec<Step>,
}
