//! The names that are defined, which references are resolved against.

use cedar_ast::{EntityUID, InternalName};
use std::alloc::Global;
use std::collections::BTreeSet;

/// The names that references are resolved against: those of common types, those of entity types,
/// and the uids of actions.
#[derive(Debug, Drop)]
pub struct AllDefs {
    pub(crate) entity_defs: BTreeSet<InternalName>,
    pub(crate) common_defs: BTreeSet<InternalName>,
    pub(crate) action_defs: BTreeSet<EntityUID>,
    /// Where the sets have their memory.
    pub alloc: Global,
}
