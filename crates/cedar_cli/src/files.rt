//! Files by name, as the program that runs the commands has them.

use std::alloc::{AllocError, AllocFailed, Global};

/// Why a file couldn't be read or written.
#[derive(Debug, Drop)]
pub enum FileFault {
    /// What the system says of it.
    Refused(String),
    /// Out of memory.
    Memory,
}

impl From<AllocError> for FileFault {
    fn from(_refused: AllocError) -> Self {
        FileFault::Memory
    }
}

impl<T: Drop> From<AllocFailed<T>> for FileFault {
    fn from(_refused: AllocFailed<T>) -> Self {
        FileFault::Memory
    }
}

/// Files by name.
pub trait FileAccess {
    /// The bytes of a file; of standard input where the name is `-`.
    fn read(&mut self, alloc: Global, name: &str) -> Result<Vec<u8>, FileFault>;

    /// Whether two names lead to one file, as far as the system tells.
    fn is_same(&mut self, first: &str, second: &str) -> bool;

    /// Whether a file of a name is there, as far as the system tells.
    fn is_there(&mut self, name: &str) -> bool;

    /// Whether a name leads to a file that keeps what is written, as far as the system tells.
    fn is_kept(&mut self, name: &str) -> bool;

    /// Puts a text in the place of a file, whole or not at all.
    fn replace(&mut self, alloc: Global, name: &str, text: &str) -> Result<(), FileFault>;
}
