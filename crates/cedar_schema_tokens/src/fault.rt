//! Refusals.

ghost use Rattle.std.specs.Prelude.{◌≡◌, ◌<◌, ◌^◌};
ghost use Rattle.cedar_schema_tokens.specs.Lexical as spec;

use cedar_ast::Loc;
use std::alloc::{AllocError, AllocFailed};

/// Why a text has no tokens, or out of memory.
#[derive(Clone, Copy, Debug, Drop, PartialEq, Eq)]
pub enum TokenFault {
    /// A character begins no token.
    BadCharacter(Loc),
    /// A quoted text isn't closed: from its quote to the end.
    OpenQuote(Loc),
    /// A backslash begins no escape, with the character behind it; or a quoted text holds a
    /// carriage return.
    BadEscape(Loc),
    /// The text has 4 GiB or more.
    TooLong,
    /// Out of memory.
    Memory,
}

/// What is wrong with a text.
#[derive(Clone, Copy, Debug, Drop, PartialEq, Eq)]
pub(crate) enum Wrong {
    /// A character begins no token.
    Character,
    /// A quoted text isn't closed.
    Quote,
    /// No part of a quoted text begins.
    Part,
}

/// Why reading stops, or out of memory.
#[derive(Clone, Copy, Debug, Drop, PartialEq, Eq)]
pub(crate) enum Stop {
    /// What is wrong, how many bytes are left where it begins, and how many stand behind it.
    At(Wrong, usize, usize),
    /// Out of memory.
    Memory,
}

impl From<AllocError> for Stop {
    ghost use Rattle.std.specs.Prelude.{◌≡◌};
    ghost use Rattle.cedar_schema_tokens.specs.declared.fault.Stop.TheVariants.{Memory};

    ghost from_gives = { λ _ stop. stop ≡ Memory };

    fn from(_refused: AllocError) -> Stop {
        Stop::Memory
    }
}

impl<T: Drop> From<AllocFailed<T>> for Stop {
    ghost use Rattle.std.specs.Prelude.{◌≡◌};
    ghost use Rattle.cedar_schema_tokens.specs.declared.fault.Stop.TheVariants.{Memory};

    ghost from_gives = { λ _ stop. stop ≡ Memory };

    fn from(_refused: AllocFailed<T>) -> Stop {
        Stop::Memory
    }
}

/// The place in a text of `total` bytes that begins where `left` bytes are left, and ends where
/// `behind` bytes are.
pub(crate) fn place(source: u32, total: usize, left: usize, behind: usize) -> Loc
    requires { total < 2 ^ 32 }
    ensures { result ≡ spec.place source total left behind }
{
    Loc {
        source,
        start: total.saturating_sub(left) as u32,
        stop: total.saturating_sub(behind) as u32,
    }
}

/// The refusal of a text of `total` bytes at which reading stops so.
pub(crate) fn fault_of(source: u32, total: usize, stop: Stop) -> TokenFault
    requires { total < 2 ^ 32 }
    ensures { result ≡ spec.fault_of source total stop }
{
    match stop {
        Stop::At(Wrong::Character, left, behind) => {
            TokenFault::BadCharacter(place(source, total, left, behind))
        }
        Stop::At(Wrong::Quote, left, behind) => {
            TokenFault::OpenQuote(place(source, total, left, behind))
        }
        Stop::At(Wrong::Part, left, behind) => {
            TokenFault::BadEscape(place(source, total, left, behind))
        }
        Stop::Memory => TokenFault::Memory,
    }
}
