//! Refusals to write.

use cedar_ast::{Memory, Name, Quoted, UnreservedId};
use cedar_schema_ast::json_schema::CommonTypeId;
use std::fmt;

/// What Cedar's schema text can't say.
#[derive(Clone, Copy, Debug, Drop, PartialEq, Eq)]
pub enum Unwritable {
    /// An action has attributes, even if none are listed.
    Attributes,
    /// A record may have attributes that aren't listed.
    OpenRecord,
    /// A shape is no record.
    ShapeIsNoRecord,
    /// A context is neither a record nor a reference to a common type.
    ContextIsNoRecord,
    /// An extension type has the name of a type of Cedar's own: `Bool`, `Long` or `String`.
    ExtensionOfOwnName,
    /// A reference to an entity type would be one to the common type of that name.
    EntityIsCommon,
    /// A reference to an entity type that isn't declared would be one to a built-in type.
    EntityIsBuiltIn,
    /// A reference to a common type would be one to the entity type of that name.
    CommonIsEntity,
    /// A type nests deeper than 128 levels, which is as deep as is read.
    TooDeep,
}

/// The part of a declaration that can't be written.
#[derive(Clone, Copy, Debug, Drop, PartialEq, Eq)]
pub enum Part {
    /// The type that a common type stands for.
    Definition,
    /// The shape of an entity type.
    Shape,
    /// The type of an entity type's tags.
    Tags,
    /// The attributes of an action.
    Attributes,
    /// The context of an action's requests.
    Context,
}

/// What is declared, by its kind and its id.
#[derive(Debug, Drop)]
pub enum Declared {
    /// A common type.
    CommonType(CommonTypeId),
    /// An entity type.
    EntityType(UnreservedId),
    /// An action.
    Action(String),
}

/// Where in a fragment something stands.
#[derive(Debug, Drop)]
pub struct Place {
    /// The namespace; None is the empty one.
    pub namespace: Option<Name>,
    /// The declaration.
    pub declared: Declared,
    /// The part of it.
    pub part: Part,
}

/// Why a fragment isn't written.
#[derive(Debug, Drop)]
pub enum TextWriteFault {
    /// The format can't say it.
    Unwritable {
        /// What can't be said.
        what: Unwritable,
        /// Where it stands.
        place: Place,
    },
    /// Out of memory.
    Memory,
}

impl From<Memory> for TextWriteFault {
    ghost use Rattle.std.specs.Prelude.{◌≡◌};
    ghost use Rattle.cedar_schema_text_writer.specs.declared.fault.TextWriteFault.TheVariants as fault;

    ghost from_gives = { λ _ it. it ≡ fault.Memory };

    fn from(_refused: Memory) -> TextWriteFault {
        TextWriteFault::Memory
    }
}

impl fmt::Display for Unwritable {
    fn fmt<W: fmt::Write>(&self, f: &mut fmt::Formatter<W>) -> fmt::Result {
        f.write_str(match self {
            Unwritable::Attributes => "an action has attributes",
            Unwritable::OpenRecord => "a record may have attributes that aren't listed",
            Unwritable::ShapeIsNoRecord => "a shape is no record",
            Unwritable::ContextIsNoRecord => {
                "a context is neither a record nor a reference to a common type"
            }
            Unwritable::ExtensionOfOwnName => {
                "an extension type has the name of a type of Cedar's own"
            }
            Unwritable::EntityIsCommon => {
                "a reference to an entity type would be one to the common type of that name"
            }
            Unwritable::EntityIsBuiltIn => {
                "a reference to an entity type would be one to a built-in type"
            }
            Unwritable::CommonIsEntity => {
                "a reference to a common type would be one to the entity type of that name"
            }
            Unwritable::TooDeep => "a type nests deeper than 128 levels",
        })
    }
}

impl fmt::Display for Part {
    fn fmt<W: fmt::Write>(&self, f: &mut fmt::Formatter<W>) -> fmt::Result {
        f.write_str(match self {
            Part::Definition => "definition",
            Part::Shape => "shape",
            Part::Tags => "tags",
            Part::Attributes => "attributes",
            Part::Context => "context",
        })
    }
}

impl fmt::Display for Declared {
    fn fmt<W: fmt::Write>(&self, f: &mut fmt::Formatter<W>) -> fmt::Result {
        match self {
            Declared::CommonType(id) => write!(f, "the common type {id}"),
            Declared::EntityType(id) => write!(f, "the entity type {id}"),
            Declared::Action(id) => write!(f, "the action {}", Quoted(id.as_str())),
        }
    }
}

/// Prints as `the shape of the entity type User in the namespace N`.
impl fmt::Display for Place {
    fn fmt<W: fmt::Write>(&self, f: &mut fmt::Formatter<W>) -> fmt::Result {
        write!(f, "the {} of {}", self.part, self.declared)?;
        match &self.namespace {
            Some(name) => write!(f, " in the namespace {name}"),
            None => Ok(()),
        }
    }
}

impl fmt::Display for TextWriteFault {
    fn fmt<W: fmt::Write>(&self, f: &mut fmt::Formatter<W>) -> fmt::Result {
        match self {
            TextWriteFault::Unwritable { what, place } => write!(f, "{what}, in {place}"),
            TextWriteFault::Memory => f.write_str("out of memory"),
        }
    }
}
