//! What kinds of definition a reference may name.

/// What kind of type a reference may name.
#[derive(Clone, Copy, Debug, PartialEq, Eq, Hash)]
pub enum ReferenceType {
    /// A common type.
    Common,
    /// An entity type.
    Entity,
    /// A common type or an entity type.
    CommonOrEntity,
}
