//! Why a reference is not resolved.

ghost use Rattle.std.specs.Fmt.{WritesOnOk};
ghost use Rattle.std.specs.Prelude.{◌≡◌, Some, codes, map};
ghost use Rattle.cedar_ast.specs.declared.memory.Memory.{Memory as WantOfMemory};
ghost use Rattle.cedar_schema_ast.specs.Words.{conditional_reference, each_after, items_of, qualify_text, reference_kind_text, undeclared_text, undeclared_types_text};
ghost use Rattle.cedar_schema_ast.specs.declared.json_schema.qualify_error.QualifyError.TheVariants.{Memory as MemoryFault};

use crate::json_schema::conditional_name::{ConditionalName, write_possibilities};
use crate::json_schema::reference_type::ReferenceType;
use cedar_ast::{Memory, NonEmpty};
use std::alloc::{AllocError, AllocFailed};
use std::error::Error;
use std::fmt;

/// References to types were found that resolve to no declared type.
#[derive(Debug, Drop)]
pub struct TypeNotDefinedError {
    /// The references that don't resolve.
    pub undefined_types: NonEmpty<ConditionalName>,
}

impl Error for TypeNotDefinedError {}

/// How the kind of type that a reference looks for is printed.
fn kind_word(kind: ReferenceType) -> &'static str
    ensures { result.now ≡ reference_kind_text kind }
{
    match kind {
        ReferenceType::Common => "common type",
        ReferenceType::Entity => "entity type",
        ReferenceType::CommonOrEntity => "type",
    }
}

/// A reference that names nothing.
#[derive(Clone, Copy)]
struct Undeclared<'a>(&'a ConditionalName);

/// Prints what was looked for.
impl fmt::Display for Undeclared<'_> {
    ghost output = { λ it. Some (undeclared_text (conditional_reference it.0.now)) };

    fn fmt<W: fmt::Write>(&self, f: &mut fmt::Formatter<W>) -> fmt::Result {
        write!(
            f,
            "no {} is declared as ",
            kind_word(*self.0.reference_type())
        )?;
        write_possibilities(self.0, f)
    }
}

/// Writes of each reference that it names nothing, with `, ` before it.
fn write_others<W: fmt::Write>(
    references: &[ConditionalName],
    f: &mut fmt::Formatter<W>,
) -> fmt::Result
    ensures { WritesOnOk W.write_str_gives f.old result
        (each_after (codes ", ") (map undeclared_text
        (map conditional_reference references.now))) f.new }
{
    for reference in references {
        write!(f, ", {}", Undeclared(reference))?;
    }
    Ok(())
}

/// Prints for each reference the kind of type and the names that were looked for, in order, as
/// `no entity type is declared as N::T or T, no type is declared as U`.
impl fmt::Display for TypeNotDefinedError {
    ghost output = { λ error. Some
        (undeclared_types_text (map conditional_reference (items_of error.undefined_types))) };

    fn fmt<W: fmt::Write>(&self, f: &mut fmt::Formatter<W>) -> fmt::Result {
        write!(f, "{}", Undeclared(&self.undefined_types.head))?;
        write_others(self.undefined_types.tail.as_slice(), f)
    }
}

/// Why a reference to a type could not be resolved.
#[derive(Debug, Drop)]
pub enum QualifyError {
    /// The reference stands for no declared type.
    TypeNotDefined(TypeNotDefinedError),
    /// Out of memory.
    Memory(Memory),
}

impl Error for QualifyError {}

impl fmt::Display for QualifyError {
    ghost output = { λ error. Some (qualify_text error) };

    fn fmt<W: fmt::Write>(&self, f: &mut fmt::Formatter<W>) -> fmt::Result {
        match self {
            QualifyError::TypeNotDefined(error) => error.fmt(f),
            QualifyError::Memory(_) => f.write_str("out of memory"),
        }
    }
}

impl From<Memory> for QualifyError {
    ghost from_gives = { λ memory e. e ≡ MemoryFault memory };

    fn from(memory: Memory) -> Self {
        QualifyError::Memory(memory)
    }
}

impl From<AllocError> for QualifyError {
    ghost from_gives = { λ _ e. (memory : WantOfMemory) × (e ≡ MemoryFault memory) };

    fn from(_refused: AllocError) -> Self {
        QualifyError::Memory(Memory)
    }
}

impl<T: Drop> From<AllocFailed<T>> for QualifyError {
    ghost from_gives = { λ _ e. (memory : WantOfMemory) × (e ≡ MemoryFault memory) };

    fn from(_refused: AllocFailed<T>) -> Self {
        QualifyError::Memory(Memory)
    }
}
