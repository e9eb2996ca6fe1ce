//! Why two types have no join.

use cedar_ast::Memory;
use std::error::Error;
use std::fmt;

/// Why two types have no least upper bound: a help for whoever reads the refusal.
#[derive(Clone, Copy, Debug, PartialEq, Eq)]
pub enum LubHelp {
    /// There is no help.
    None,
    /// In strict mode, the records don't have the same attributes.
    RecordWidth,
    /// In strict mode, an attribute is required in one record and optional in the other.
    AttributeQualifier,
    /// In strict mode, the entity types differ.
    EntityType,
    /// One type is an entity type and the other a record type.
    EntityRecord,
}

impl fmt::Display for LubHelp {
    ghost use Rattle.cedar_type_rules.specs.Words.{Some, help_text};

    ghost output = { λ help. Some (help_text help) };

    fn fmt<W: fmt::Write>(&self, f: &mut fmt::Formatter<W>) -> fmt::Result {
        f.write_str(match self {
            LubHelp::None => "None",
            LubHelp::RecordWidth => "RecordWidth",
            LubHelp::AttributeQualifier => "AttributeQualifier",
            LubHelp::EntityType => "EntityType",
            LubHelp::EntityRecord => "EntityRecord",
        })
    }
}

/// Why a join has no answer.
#[derive(Clone, Copy, Debug, PartialEq, Eq)]
pub enum JoinError {
    /// The types have no least upper bound.
    Help(LubHelp),
    /// A growth was refused.
    Memory,
}

impl Error for JoinError {}

impl fmt::Display for JoinError {
    ghost use Rattle.cedar_type_rules.specs.Words.{Some, join_error_text};

    ghost output = { λ error. Some (join_error_text error) };

    fn fmt<W: fmt::Write>(&self, f: &mut fmt::Formatter<W>) -> fmt::Result {
        match self {
            JoinError::Help(help) => {
                write!(f, "the types have no least upper bound (help: {help})")
            }
            JoinError::Memory => f.write_str("out of memory"),
        }
    }
}

impl From<Memory> for JoinError {
    ghost use Rattle.std.specs.Prelude.{◌≡◌};
    ghost use Rattle.cedar_type_rules.specs.declared.join_error.JoinError.TheVariants as join;

    ghost from_gives = { λ _ error. error ≡ join.Memory };

    fn from(_refused: Memory) -> Self {
        JoinError::Memory
    }
}
