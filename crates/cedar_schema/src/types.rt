//! The types of the validator, and the types of requests.

pub use cedar_schema_elements::{RequestEnv, UnlinkedRequestEnv};
pub use cedar_types::{
    AttributeType, Attributes, BoolType, EntityKind, EntityLUB, JoinError, LubHelp, OpenTag, Type,
};
