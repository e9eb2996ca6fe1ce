//! Why a closure was refused.

ghost use Rattle.std.specs.Prelude.{◌≡◌};
ghost use Rattle.cedar_graph.specs.TcError.{tc_error_text};
ghost use Rattle.cedar_graph.specs.declared.tc_error.TcError.TheVariants.{Memory as NoMemory};

use cedar_ast::Memory;
use std::error::Error;
use std::fmt;
use std::fmt::{Debug, Display};

/// Why a closure was refused.
#[derive(Debug, Drop, PartialEq, Eq)]
pub enum TcError<K> {
    /// No cycle was allowed, and a chain of edges leads from the key back to it.
    HasCycle(K),
    /// A growth was refused.
    Memory,
}

impl<K: Debug + Display + Drop> Error for TcError<K> {}

impl<K: Display> Display for TcError<K> {
    ghost output = { tc_error_text K.output };

    fn fmt<W: fmt::Write>(&self, f: &mut fmt::Formatter<W>) -> fmt::Result {
        match self {
            TcError::HasCycle(key) => write!(f, "a cycle of edges leads back to {key}"),
            TcError::Memory => f.write_str("out of memory"),
        }
    }
}

impl<K> From<Memory> for TcError<K> {
    ghost from_gives = { λ _ refused. refused ≡ NoMemory };

    fn from(_refused: Memory) -> Self {
        TcError::Memory
    }
}
