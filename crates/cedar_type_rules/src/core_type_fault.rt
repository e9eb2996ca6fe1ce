//! Why a type has no core type.

use cedar_ast::Memory;
use thiserror::Error;

/// Why a type has no core type: what stands in it, or out of memory.
#[derive(Clone, Copy, Debug, PartialEq, Eq, Error)]
pub enum CoreTypeFault {
    /// The type without values.
    #[error("the type without values has no core type")]
    NeverType,
    /// The type of entities of any type.
    #[error("the type of entities of any type has no core type")]
    AnyEntityType,
    /// A union of two entity types or more.
    #[error("a union of entity types has no core type")]
    UnionType,
    /// A growth was refused.
    #[error("out of memory")]
    Memory,
}

impl From<Memory> for CoreTypeFault {
    ghost use Rattle.std.specs.Prelude.{◌≡◌};
    ghost use Rattle.cedar_type_rules.specs.declared.core_type_fault.CoreTypeFault.TheVariants as fault;

    ghost from_gives = { λ _ error. error ≡ fault.Memory };

    fn from(_refused: Memory) -> Self {
        CoreTypeFault::Memory
    }
}
