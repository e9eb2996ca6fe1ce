//! The declarations of fragments, kind by kind.

use crate::namespace::{ActionFragment, EntityTypeFragment};
use cedar_ast::{EntityType, EntityUID};
use cedar_name_resolution::{DeclaredCommonType, Written};

/// An entity type under its full name, with what is declared of it. It stands behind a pointer, so
/// that lists of many are short.
pub type DeclaredEntityType<N> = Box<(EntityType, Written<EntityTypeFragment<N>>)>;

/// An action under its uid, with what is declared of it, behind a pointer too.
pub type DeclaredAction<N> = Box<(EntityUID, Written<ActionFragment<N, N>>)>;

/// What fragments declare: the common types, the entity types and the actions, each under its full
/// name and with the namespace that its names are written in, in the order of the fragments.
#[derive(Debug, Drop)]
pub struct Declarations<N> {
    /// The common types, each with the type that it is defined as.
    pub common_types: Vec<DeclaredCommonType<N>>,
    /// The entity types, each with what is declared of it.
    pub entity_types: Vec<DeclaredEntityType<N>>,
    /// The actions, each under its uid with what is declared of it.
    pub actions: Vec<DeclaredAction<N>>,
}
