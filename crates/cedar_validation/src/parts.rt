//! The entity types and the actions of a schema.

use cedar_ast::{EntityType, EntityUID};
use cedar_schema_elements::{ValidatorActionId, ValidatorEntityType};
use cedar_table::Table;

/// Entity types, each under its name.
pub type Types = Table<EntityType, ValidatorEntityType>;

/// Actions, each under its uid.
pub type Actions = Table<EntityUID, ValidatorActionId>;

/// The entity types and the actions of a schema.
#[derive(Debug, Drop, PartialEq, Eq)]
pub struct Parts {
    /// The entity types, each under its name.
    pub entity_types: Types,
    /// The actions, each under its uid.
    pub actions: Actions,
}
