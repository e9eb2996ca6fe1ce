//! Core types: those that arguments and results of extension functions have.

use crate::entity_type::EntityType;
use crate::name::Name;
use std::collections::BTreeMap;

/// A type of values without unions: what a value is checked against below the validator.
#[derive(Debug, Drop)]
#[cycle(core_type)]
pub enum CoreSchemaType {
    /// Truth values.
    Bool,
    /// Whole numbers.
    Long,
    /// Texts.
    String,
    /// Sets whose elements all fit one type.
    Set {
        /// The type of the elements.
        element_ty: Box<CoreSchemaType>,
    },
    /// The empty set alone.
    EmptySet,
    /// Records.
    Record {
        /// The listed attributes.
        attrs: BTreeMap<String, CoreAttributeType>,
        /// Whether other attributes may be there.
        open_attrs: bool,
    },
    /// Entities of one type.
    Entity {
        /// The type of the entities.
        ty: EntityType,
    },
    /// Values of an extension type.
    Extension {
        /// The name of the extension type.
        name: Name,
    },
}

/// An attribute of a core record type.
#[derive(Debug, Drop)]
#[cycle(core_type)]
pub struct CoreAttributeType {
    /// The type of the attribute's values.
    pub attr_type: CoreSchemaType,
    /// Whether a record has to have the attribute.
    pub required: bool,
}
