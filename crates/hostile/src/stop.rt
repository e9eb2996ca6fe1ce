//! Why a scenario gives no answer.

use cedar_schema::below::{Memory, NameFault};
use cedar_schema::{CoreTypeFault, JoinError, SchemaError};
use cedar_schema_text::TextFault;
use std::alloc::{AllocError, AllocFailed};

/// Why a scenario gives no answer.
#[derive(Clone, Copy)]
pub(crate) enum Stop {
    /// A growth was refused.
    Memory,
    /// What stands after a call, or what it answered, isn't what it has to be.
    Changed,
}

/// Why a scenario stops at a refused growth, after which something has to stand as it did.
pub(crate) fn refused_where(stands: bool) -> Stop {
    if stands { Stop::Memory } else { Stop::Changed }
}

impl From<Memory> for Stop {
    fn from(_refused: Memory) -> Self {
        Stop::Memory
    }
}

impl From<AllocError> for Stop {
    fn from(_refused: AllocError) -> Self {
        Stop::Memory
    }
}

impl<T: Drop> From<AllocFailed<T>> for Stop {
    fn from(_refused: AllocFailed<T>) -> Self {
        Stop::Memory
    }
}

impl From<NameFault> for Stop {
    fn from(refused: NameFault) -> Self {
        refused_where(matches!(refused, NameFault::Memory(_)))
    }
}

impl From<JoinError> for Stop {
    fn from(refused: JoinError) -> Self {
        refused_where(matches!(refused, JoinError::Memory))
    }
}

impl From<CoreTypeFault> for Stop {
    fn from(refused: CoreTypeFault) -> Self {
        refused_where(matches!(refused, CoreTypeFault::Memory))
    }
}

impl From<SchemaError> for Stop {
    fn from(refused: SchemaError) -> Self {
        refused_where(matches!(refused, SchemaError::Memory(_)))
    }
}

impl From<TextFault> for Stop {
    fn from(refused: TextFault) -> Self {
        refused_where(matches!(refused, TextFault::Memory))
    }
}
