//! What a schema's text says.

use cedar_ast::Loc;

/// An id or a quoted text, with its place.
#[derive(Debug, Drop)]
pub struct Name {
    /// The id, or the text with its escapes resolved.
    pub text: String,
    /// Where it stands, with its quotes.
    pub loc: Loc,
}

/// Ids with `::` between them, and their place.
#[derive(Debug, Drop)]
pub struct Path {
    /// The ids.
    pub ids: Vec<String>,
    /// Where the path stands.
    pub loc: Loc,
}

/// A type.
#[derive(Debug, Drop)]
pub enum Type {
    /// The type of this name.
    Path(Path),
    /// Sets of elements of one type.
    Set(Box<Type>),
    /// Records of these attributes, from `{` to `}`.
    Record(Vec<Attribute<Type>>, Loc),
}

/// An attribute of a record.
#[derive(Debug, Drop)]
pub struct Attribute<T> {
    /// The names of its annotations.
    pub annotations: Vec<Name>,
    /// Its name.
    pub name: Name,
    /// Whether no `?` stands behind the name.
    pub is_required: bool,
    /// Its type.
    pub of: T,
}

/// A parent of an action.
#[derive(Debug, Drop)]
pub struct Parent {
    /// The parent's type, where one is written.
    pub ty: Option<Path>,
    /// The parent's id.
    pub id: Name,
    /// Where all of it stands.
    pub loc: Loc,
}

/// What a part of an `appliesTo` says.
#[derive(Debug, Drop)]
pub enum Says {
    /// The types of principals.
    Principals(Vec<Path>),
    /// The types of resources.
    Resources(Vec<Path>),
    /// The context: a path or a record.
    Context(Type),
}

/// A part of an `appliesTo`.
#[derive(Debug, Drop)]
pub struct Part {
    /// What it says.
    pub says: Says,
    /// Where its word stands.
    pub loc: Loc,
}

/// An `appliesTo`.
#[derive(Debug, Drop)]
pub struct Applies {
    /// Its parts.
    pub parts: Vec<Part>,
    /// Where it stands, from its word to its `}`.
    pub loc: Loc,
}

/// The body of an entity type.
#[derive(Debug, Drop)]
pub enum Body {
    /// The ids of its entities.
    Choices(Vec<Name>),
    /// What an entity type without listed ids says.
    Standard {
        /// The entity types that are its parents.
        parents: Vec<Path>,
        /// The record type of its attributes, where one is written.
        shape: Option<Type>,
        /// The type of its tags, where one is written.
        tags: Option<Type>,
    },
}

/// What is declared.
#[derive(Debug, Drop)]
pub enum Item {
    /// Entity types with the same body.
    Entity {
        /// Whether `external` is written.
        external: bool,
        /// Their ids.
        names: Vec<Name>,
        /// Their body.
        body: Body,
    },
    /// Actions that are declared alike.
    Action {
        /// Whether `external` is written.
        external: bool,
        /// Their ids.
        names: Vec<Name>,
        /// Their parents, where `in` is written.
        parents: Option<Vec<Parent>>,
        /// The requests that they are for, where `appliesTo` is written.
        applies: Option<Applies>,
    },
    /// A common type.
    Common {
        /// Its id.
        name: Name,
        /// The type that it stands for.
        of: Type,
    },
}

/// A declaration.
#[derive(Debug, Drop)]
pub struct Declaration {
    /// The names of its annotations.
    pub annotations: Vec<Name>,
    /// What it declares.
    pub item: Item,
    /// Where it stands, from its first word to `;`.
    pub loc: Loc,
}

/// A member of a schema.
#[derive(Debug, Drop)]
pub enum Member {
    /// A block of a namespace.
    Namespace {
        /// The names of its annotations.
        annotations: Vec<Name>,
        /// The namespace's name.
        path: Path,
        /// The declarations in the block.
        declarations: Vec<Declaration>,
        /// Where these stand, from `{` to `}`.
        loc: Loc,
    },
    /// A declaration outside of blocks.
    Alone(Declaration),
}
