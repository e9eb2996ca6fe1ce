//! Actions of a schema.

pub use cedar_schema_elements::{RequestTypes, TypeSet, ValidatorActionId, ValidatorApplySpec};
