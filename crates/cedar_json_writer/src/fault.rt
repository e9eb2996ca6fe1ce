//! Refusals to write.

use cedar_ast::Memory;
use std::alloc::{AllocError, AllocFailed};

/// What can't be written of a fragment in Cedar's JSON schema format.
#[derive(Clone, Copy, Debug, Drop, PartialEq, Eq)]
pub enum Unwritable {
    /// A type refers to a common type by this word, which in the format says of which form a type
    /// is.
    TypeWord(&'static str),
    /// A value in an action's attributes is a call with this number of arguments. The format has
    /// calls of one argument alone.
    Arguments(usize),
    /// A value in an action's attributes is a record with this key alone, which in the format says
    /// that an object is a reference to an entity or a call.
    LoneKey(&'static str),
    /// The fragment nests deeper than 128 levels of JSON, which is as deep as is read.
    TooDeep,
}

/// Why a fragment isn't written.
#[derive(Clone, Copy, Debug, Drop, PartialEq, Eq)]
pub enum WriteFault {
    /// The format can't say it.
    Unwritable(Unwritable),
    /// Out of memory.
    Memory,
}

impl From<Memory> for WriteFault {
    ghost use Rattle.std.specs.Prelude.{◌≡◌};
    ghost use Rattle.cedar_json_writer.specs.declared.fault.WriteFault.TheVariants as fault;

    ghost from_gives = { λ _ it. it ≡ fault.Memory };

    fn from(_refused: Memory) -> WriteFault {
        WriteFault::Memory
    }
}

impl From<AllocError> for WriteFault {
    ghost use Rattle.std.specs.Prelude.{◌≡◌};
    ghost use Rattle.cedar_json_writer.specs.declared.fault.WriteFault.TheVariants as fault;

    ghost from_gives = { λ _ it. it ≡ fault.Memory };

    fn from(_refused: AllocError) -> WriteFault {
        WriteFault::Memory
    }
}

impl From<Unwritable> for WriteFault {
    ghost use Rattle.std.specs.Prelude.{◌≡◌};
    ghost use Rattle.cedar_json_writer.specs.declared.fault.WriteFault.TheVariants as fault;

    ghost from_gives = { λ what it. it ≡ fault.Unwritable what };

    fn from(what: Unwritable) -> WriteFault {
        WriteFault::Unwritable(what)
    }
}
