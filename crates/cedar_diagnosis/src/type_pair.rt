//! Pairs of entity types as keys.

use cedar_ast::EntityType;

/// An entity type and another above it.
#[derive(PartialEq, Eq, PartialOrd, Ord, Drop)]
pub(crate) struct TypePair {
    /// The lower one.
    pub(crate) lower: EntityType,
    /// The upper one.
    pub(crate) upper: EntityType,
}
