//! Why a text is no name.

ghost use Rattle.std.specs.Prelude.{◌≡◌};
ghost use Rattle.cedar_ast.specs.NameFault.{memory_fault};

use crate::memory::Memory;
use std::alloc::{AllocError, AllocFailed};
use std::{error, fmt};

/// Why no name was read from a text.
#[derive(Clone, Copy, Debug, PartialEq, Eq)]
pub enum NameFault {
    /// The text stops being a name, or a uid, at this byte, counted from 0: what stands before it
    /// begins one, and no more of the text does. At the end of the text more is wanted.
    NotAName(usize),
    /// The text is a name that is reserved: a part of it is `__cedar` (RFC 52).
    Reserved,
    /// The text names a type of Cedar's own, as `Long` or `Set`, so no common type may have it as
    /// its base name (the Cedar reference on schemas).
    NoCommonType,
    /// Out of memory.
    Memory(Memory),
}

impl fmt::Display for NameFault {
    ghost use Rattle.std.specs.Prelude.{Some};
    ghost use Rattle.cedar_ast.specs.NameFaultText.{name_fault_text};

    ghost output = { λ fault. Some (name_fault_text fault) };

    fn fmt<W: fmt::Write>(&self, f: &mut fmt::Formatter<W>) -> fmt::Result {
        match self {
            NameFault::NotAName(at) => write!(f, "the text can't be read on from byte {at}"),
            NameFault::Reserved => f.write_str("a part of the name is the reserved word __cedar"),
            NameFault::NoCommonType => f.write_str("the name is that of a type of Cedar's own"),
            NameFault::Memory(_) => f.write_str("out of memory"),
        }
    }
}

impl error::Error for NameFault {}

impl From<Memory> for NameFault {
    ghost from_gives = { λ _ fault. fault ≡ memory_fault };

    fn from(refused: Memory) -> Self {
        NameFault::Memory(refused)
    }
}

impl From<AllocError> for NameFault {
    ghost from_gives = { λ _ fault. fault ≡ memory_fault };

    fn from(_refused: AllocError) -> Self {
        NameFault::Memory(Memory)
    }
}

impl<T: Drop> From<AllocFailed<T>> for NameFault {
    ghost from_gives = { λ _ fault. fault ≡ memory_fault };

    fn from(_refused: AllocFailed<T>) -> Self {
        NameFault::Memory(Memory)
    }
}
