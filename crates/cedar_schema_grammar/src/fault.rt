//! Refusals.

use cedar_ast::Loc;
use std::alloc::{AllocError, AllocFailed};

/// Why tokens are no schema, or out of memory.
#[derive(Clone, Copy, Debug, Drop, PartialEq, Eq)]
pub enum GrammarFault {
    /// No schema goes on with the token here, or the tokens end too early.
    Unexpected(Loc),
    /// A `Set` or a `{` opens a level of types beyond the limit.
    TooDeep(Loc),
    /// Out of memory.
    Memory,
}

/// Why reading stops, with the number of tokens that are left, or out of memory.
#[derive(Clone, Copy, Debug, Drop, PartialEq, Eq)]
pub(crate) enum Stop {
    /// Out of memory.
    Memory,
    /// No rule goes on with the token that comes next.
    Unexpected(usize),
    /// A set or a record opens a level beyond the limit.
    TooDeep(usize),
}

impl From<AllocError> for Stop {
    ghost use Rattle.std.specs.Prelude.{◌≡◌};
    ghost use Rattle.cedar_schema_grammar.specs.declared.fault.Stop.TheVariants.{Memory};

    ghost from_gives = { λ _ stop. stop ≡ Memory };

    fn from(_refused: AllocError) -> Stop {
        Stop::Memory
    }
}

impl<T: Drop> From<AllocFailed<T>> for Stop {
    ghost use Rattle.std.specs.Prelude.{◌≡◌};
    ghost use Rattle.cedar_schema_grammar.specs.declared.fault.Stop.TheVariants.{Memory};

    ghost from_gives = { λ _ stop. stop ≡ Memory };

    fn from(_refused: AllocFailed<T>) -> Stop {
        Stop::Memory
    }
}
