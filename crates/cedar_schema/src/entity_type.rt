//! Entity types of a schema.

pub use cedar_schema_elements::{
    StandardValidatorEntityType, ValidatorEntityType, ValidatorEntityTypeKind,
};
