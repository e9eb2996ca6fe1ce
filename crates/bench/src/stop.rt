//! Why a measurement stops.

use cedar_compare::CompareFault;
use cedar_json::JsonSchemaFault;
use cedar_json_writer::WriteFault;
use cedar_schema::below::{EntityType, Memory, NameFault};
use cedar_schema::{JoinError, SchemaError, TcError, WriteBackFault};
use cedar_schema_text::TextFault;
use cedar_schema_text_writer::TextWriteFault;
use std::alloc::{AllocError, AllocFailed};
use std::io;

/// Why a measurement stops.
#[derive(Drop)]
pub(crate) enum Stop {
    /// A growth was refused.
    Memory,
    /// The clock couldn't be read, or a writer refused.
    System,
    /// What was prepared was refused by the call that is measured.
    Refused,
    /// The file of earlier figures couldn't be read.
    Figures,
}

impl From<Memory> for Stop {
    fn from(_refused: Memory) -> Self {
        Stop::Memory
    }
}

impl From<AllocError> for Stop {
    fn from(_refused: AllocError) -> Self {
        Stop::Memory
    }
}

impl<T: Drop> From<AllocFailed<T>> for Stop {
    fn from(_refused: AllocFailed<T>) -> Self {
        Stop::Memory
    }
}

impl From<NameFault> for Stop {
    fn from(refused: NameFault) -> Self {
        match refused {
            NameFault::Memory(_) => Stop::Memory,
            _ => Stop::Refused,
        }
    }
}

impl From<JoinError> for Stop {
    fn from(refused: JoinError) -> Self {
        match refused {
            JoinError::Memory => Stop::Memory,
            JoinError::Help(_) => Stop::Refused,
        }
    }
}

impl From<SchemaError> for Stop {
    fn from(refused: SchemaError) -> Self {
        match refused {
            SchemaError::Memory(_) => Stop::Memory,
            _ => Stop::Refused,
        }
    }
}

impl From<WriteBackFault> for Stop {
    fn from(refused: WriteBackFault) -> Self {
        match refused {
            WriteBackFault::Memory => Stop::Memory,
            WriteBackFault::Unwritable => Stop::Refused,
        }
    }
}

impl From<CompareFault> for Stop {
    fn from(refused: CompareFault) -> Self {
        match refused {
            CompareFault::Memory(_) => Stop::Memory,
            _ => Stop::Refused,
        }
    }
}

impl From<TcError<EntityType>> for Stop {
    fn from(refused: TcError<EntityType>) -> Self {
        match refused {
            TcError::Memory => Stop::Memory,
            TcError::HasCycle(_) => Stop::Refused,
        }
    }
}

impl From<JsonSchemaFault> for Stop {
    fn from(refused: JsonSchemaFault) -> Self {
        match refused {
            JsonSchemaFault::Memory => Stop::Memory,
            _ => Stop::Refused,
        }
    }
}

impl From<TextFault> for Stop {
    fn from(refused: TextFault) -> Self {
        match refused {
            TextFault::Memory => Stop::Memory,
            _ => Stop::Refused,
        }
    }
}

impl From<TextWriteFault> for Stop {
    fn from(refused: TextWriteFault) -> Self {
        match refused {
            TextWriteFault::Memory => Stop::Memory,
            TextWriteFault::Unwritable { .. } => Stop::Refused,
        }
    }
}

impl From<WriteFault> for Stop {
    fn from(refused: WriteFault) -> Self {
        match refused {
            WriteFault::Memory => Stop::Memory,
            WriteFault::Unwritable(_) => Stop::Refused,
        }
    }
}

impl From<io::Error> for Stop {
    fn from(_refused: io::Error) -> Self {
        Stop::System
    }
}
