//! What was written in a fragment, with its places.

use cedar_ast::{InternalName, Loc};

/// What a fragment has at a place.
#[derive(Debug, Drop)]
pub enum Written {
    /// The declaration of a common type, by its name in full.
    CommonType(InternalName),
    /// The declaration of an entity type, by its name in full.
    EntityType(InternalName),
    /// The declaration of an action.
    Action {
        /// The name in full of the action's type.
        ty: InternalName,
        /// The action's id.
        id: String,
        /// Whether attributes are written.
        has_attributes: bool,
    },
    /// A record type that admits attributes which it doesn't list.
    OpenRecord,
    /// A type that names this extension type.
    ExtensionType(String),
}

/// What a fragment has at a place, with the place.
#[derive(Debug, Drop)]
pub struct WrittenAt {
    /// What was written.
    pub what: Written,
    /// Where it was written, if that is known.
    pub loc: Option<Loc>,
}

/// The declarations, open record types and extension types of a fragment, in its order.
#[derive(Debug, Drop)]
pub struct Places(pub Vec<WrittenAt>);
