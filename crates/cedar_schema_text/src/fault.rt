//! Refusals.

use cedar_ast::{Loc, Memory};
use std::alloc::{AllocError, AllocFailed};

/// What may be declared but once.
#[derive(Clone, Copy, Debug, Drop, PartialEq, Eq)]
pub enum Repeated {
    /// The block of a namespace.
    Namespace,
    /// A common type of a namespace.
    CommonType,
    /// An entity type of a namespace.
    EntityType,
    /// An action of a namespace.
    Action,
    /// An attribute of a record.
    Attribute,
    /// An annotation of one thing.
    Annotation,
    /// A part of an `appliesTo`.
    Part,
}

/// Something that stands twice.
#[derive(Debug, Drop, PartialEq, Eq)]
pub struct Twice {
    /// What it is.
    pub what: Repeated,
    /// Its name.
    pub name: String,
    /// Where the name stands first.
    pub first: Loc,
    /// Where it stands again.
    pub second: Loc,
}

/// The part that an `appliesTo` lacks.
#[derive(Clone, Copy, Debug, Drop, PartialEq, Eq)]
pub enum Missing {
    /// `principal`.
    Principal,
    /// `resource`.
    Resource,
}

/// Why the members of a text stand for no fragment, or out of memory.
#[derive(Debug, Drop, PartialEq, Eq)]
pub enum MeaningFault {
    /// Something stands twice that may stand but once.
    Twice(Twice),
    /// An `appliesTo` lacks a part. It stands from its word to its `}`.
    Missing(Missing, Loc),
    /// A name that is declared, or that of a namespace, is reserved. So is said of a name that is
    /// none, and of an entity type that lists no ids, which no text has.
    Reserved(Loc),
    /// Out of memory.
    Memory,
}

impl From<Memory> for MeaningFault {
    ghost use Rattle.std.specs.Prelude.{◌≡◌};
    ghost use Rattle.cedar_schema_text.specs.declared.fault.MeaningFault.TheVariants as fault;

    ghost from_gives = { λ _ it. it ≡ fault.Memory };

    fn from(_refused: Memory) -> MeaningFault {
        MeaningFault::Memory
    }
}

impl From<AllocError> for MeaningFault {
    ghost use Rattle.std.specs.Prelude.{◌≡◌};
    ghost use Rattle.cedar_schema_text.specs.declared.fault.MeaningFault.TheVariants as fault;

    ghost from_gives = { λ _ it. it ≡ fault.Memory };

    fn from(_refused: AllocError) -> MeaningFault {
        MeaningFault::Memory
    }
}

impl<T: Drop> From<AllocFailed<T>> for MeaningFault {
    ghost use Rattle.std.specs.Prelude.{◌≡◌};
    ghost use Rattle.cedar_schema_text.specs.declared.fault.MeaningFault.TheVariants as fault;

    ghost from_gives = { λ _ it. it ≡ fault.Memory };

    fn from(_refused: AllocFailed<T>) -> MeaningFault {
        MeaningFault::Memory
    }
}
