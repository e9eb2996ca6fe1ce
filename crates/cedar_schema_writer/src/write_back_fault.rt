//! Why a schema isn't converted back.

use cedar_ast::Memory;
use std::alloc::{AllocError, AllocFailed};
use thiserror::Error;

/// Why a schema isn't converted back.
#[derive(Clone, Copy, Debug, PartialEq, Eq, Error)]
pub enum WriteBackFault {
    /// No fragment declares it as it is.
    #[error("the schema can't be written as a fragment")]
    Unwritable,
    /// A growth was refused.
    #[error("out of memory")]
    Memory,
}

impl From<Memory> for WriteBackFault {
    ghost use Rattle.std.specs.Prelude.{◌≡◌};
    ghost use Rattle.cedar_schema_writer.specs.declared.write_back_fault.WriteBackFault.TheVariants as fault;

    ghost from_gives = { λ _ error. error ≡ fault.Memory };

    fn from(_refused: Memory) -> Self {
        WriteBackFault::Memory
    }
}

impl From<AllocError> for WriteBackFault {
    ghost use Rattle.std.specs.Prelude.{◌≡◌};
    ghost use Rattle.cedar_schema_writer.specs.declared.write_back_fault.WriteBackFault.TheVariants as fault;

    ghost from_gives = { λ _ error. error ≡ fault.Memory };

    fn from(_refused: AllocError) -> Self {
        WriteBackFault::Memory
    }
}

impl<T: Drop> From<AllocFailed<T>> for WriteBackFault {
    ghost use Rattle.std.specs.Prelude.{◌≡◌};
    ghost use Rattle.cedar_schema_writer.specs.declared.write_back_fault.WriteBackFault.TheVariants as fault;

    ghost from_gives = { λ _ error. error ≡ fault.Memory };

    fn from(_refused: AllocFailed<T>) -> Self {
        WriteBackFault::Memory
    }
}
