//! Why a table wasn't closed.

ghost use Rattle.std.specs.Prelude.{◌≡◌};
ghost use Rattle.cedar_graph.specs.declared.table_fault.TableFault.TheVariants.{Memory as NoMemory};

use cedar_ast::Memory;
use std::alloc::{AllocError, AllocFailed};

/// Why a table wasn't closed.
#[derive(Debug, Drop)]
pub enum TableFault<K> {
    /// No cycle was allowed, and a chain of edges leads from the key back to it.
    HasCycle(K),
    /// An edge leads to the key, which isn't one of the table.
    Lacks(K),
    /// A growth was refused.
    Memory,
}

impl<K> From<Memory> for TableFault<K> {
    ghost from_gives = { λ _ refused. refused ≡ NoMemory };

    fn from(_refused: Memory) -> Self {
        TableFault::Memory
    }
}

impl<K> From<AllocError> for TableFault<K> {
    ghost from_gives = { λ _ refused. refused ≡ NoMemory };

    fn from(_refused: AllocError) -> Self {
        TableFault::Memory
    }
}

impl<K, T: Drop> From<AllocFailed<T>> for TableFault<K> {
    ghost from_gives = { λ _ refused. refused ≡ NoMemory };

    fn from(_refused: AllocFailed<T>) -> Self {
        TableFault::Memory
    }
}
