//! Why a check stops.

ghost use Rattle.cedar_schema_text_writer.specs.Flaws.{Checks, found};

use crate::fault::{Part, Unwritable};
use cedar_ast::Memory;

/// What can't be written, and in which part of a declaration.
#[derive(Clone, Copy, Drop)]
pub(crate) struct Flaw {
    /// What can't be written.
    pub(crate) what: Unwritable,
    /// The part of the declaration.
    pub(crate) part: Part,
}

/// Why a check stops.
#[derive(Clone, Copy, Drop)]
pub(crate) enum Stop {
    /// Something can't be written.
    Flaw(Flaw),
    /// Out of memory.
    Memory,
}

impl From<Memory> for Stop {
    ghost use Rattle.std.specs.Prelude.{◌≡◌};
    ghost use Rattle.cedar_schema_text_writer.specs.declared.stop.Stop.TheVariants as stop;

    ghost from_gives = { λ _ it. it ≡ stop.Memory };

    fn from(_refused: Memory) -> Stop {
        Stop::Memory
    }
}

/// The refusal of something that can't be written.
pub(crate) fn refused(what: Unwritable, part: Part) -> Result<(), Stop>
    ensures { Checks (found what part) result }
{
    Err(Stop::Flaw(Flaw { what, part }))
}
