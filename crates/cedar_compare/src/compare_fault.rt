//! Why two schemas aren't compared.

ghost use Rattle.std.specs.Prelude.{◌≡◌, Some};
ghost use Rattle.cedar_compare.specs.CompareFault.{fault_text};

use cedar_ast::Memory;
use std::error::Error;
use std::fmt;

/// One of two versions of a schema.
#[derive(Clone, Copy, Debug, Drop, PartialEq, Eq)]
pub enum Version {
    /// The old one.
    Old,
    /// The new one.
    New,
}

/// Why two versions of a schema aren't compared.
#[derive(Debug, Drop)]
pub enum CompareFault {
    /// This version declares an entity type or an action to be elsewhere (RFC 116), so it isn't
    /// known what it admits.
    Incomplete(Version),
    /// In a type of this version stands one of which there is no value: it is `Never`, an extension
    /// type of which there is no sample, or names a type of actions of which there is none. The
    /// text is how it is printed.
    Unsampled(Version, String),
    /// A growth was refused.
    Memory(Memory),
}

impl Error for CompareFault {}

/// Prints `the new schema is incomplete`, `the old schema has a type without a sample: T`, or `out
/// of memory`.
impl fmt::Display for CompareFault {
    ghost output = { λ fault. Some (fault_text fault) };

    fn fmt<W: fmt::Write>(&self, f: &mut fmt::Formatter<W>) -> fmt::Result {
        match self {
            CompareFault::Incomplete(Version::Old) => f.write_str("the old schema is incomplete"),
            CompareFault::Incomplete(Version::New) => f.write_str("the new schema is incomplete"),
            CompareFault::Unsampled(Version::Old, ty) => {
                write!(f, "the old schema has a type without a sample: {ty}")
            }
            CompareFault::Unsampled(Version::New, ty) => {
                write!(f, "the new schema has a type without a sample: {ty}")
            }
            CompareFault::Memory(_) => f.write_str("out of memory"),
        }
    }
}

impl From<Memory> for CompareFault {
    ghost use Rattle.cedar_compare.specs.declared.compare_fault.CompareFault.TheVariants.{Memory as MemoryFault};

    ghost from_gives = { λ memory fault. fault ≡ MemoryFault memory };

    fn from(memory: Memory) -> Self {
        CompareFault::Memory(memory)
    }
}
