//! Parents of actions as keys.

use crate::reference_key::ReferenceKey;

/// A parent of an action.
#[derive(PartialEq, Eq, PartialOrd, Ord, Drop)]
pub(crate) struct ParentKey {
    /// The reference that its type is.
    pub(crate) reference: ReferenceKey,
    /// Its id.
    pub(crate) id: String,
}
