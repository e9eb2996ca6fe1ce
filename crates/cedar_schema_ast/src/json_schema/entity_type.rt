//! Declarations of entity types.

use crate::json_schema::type_of::Type;
use cedar_ast::{Eid, Loc, NonEmpty};

/// The declaration of an entity type.
#[derive(Debug, Drop)]
pub struct EntityType<N> {
    /// What is declared of the entities of this type.
    pub kind: EntityTypeKind<N>,
    /// Whether the declaration is external: the type is defined elsewhere, and only its name and
    /// its `memberOf` types count here.
    pub external: bool,
    /// Where the declaration was written, if that is known.
    pub loc: Option<Loc>,
}

/// The kinds of entity type.
#[derive(Debug, Drop)]
pub enum EntityTypeKind<N> {
    /// A type whose entities may have any id, and may have attributes, tags and ancestors.
    Standard(StandardEntityType<N>),
    /// An enumerated type, whose entities are those with the listed ids.
    Enum {
        /// The ids of the entities.
        choices: NonEmpty<Eid>,
    },
}

/// What is declared of the entities of a standard entity type.
#[derive(Debug, Drop)]
pub struct StandardEntityType<N> {
    /// The `memberOf` types: the entity types whose entities may be direct parents of an entity of
    /// this type.
    pub member_of_types: Vec<N>,
    /// The shape: the record type of an entity's attributes.
    pub shape: AttributesOrContext<N>,
    /// The type that the values of all tags have, or None where an entity can't have tags.
    pub tags: Option<Type<N>>,
}

/// The type of an entity's attributes or of a request's context: a record type, or a reference to
/// a common type that stands for one.
#[derive(Debug, Drop)]
pub struct AttributesOrContext<N>(pub Type<N>);
