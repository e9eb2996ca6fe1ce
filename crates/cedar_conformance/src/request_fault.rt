//! Why a request isn't one of a schema.

use crate::value_fault::ValueFault;
use cedar_ast::{EntityType, EntityUID, Memory};

/// Why a request isn't one of a schema. Of several faults any may be named.
#[derive(Debug, Drop, PartialEq, Eq)]
pub enum RequestFault {
    /// The schema has no such action.
    UnknownAction(EntityUID),
    /// The action is external: the schema doesn't say which requests it has.
    External(EntityUID),
    /// Principals of that entity type don't take the action.
    PrincipalNotAllowed(EntityType),
    /// The action isn't taken on resources of that entity type.
    ResourceNotAllowed(EntityType),
    /// The principal or the resource is no choice of its enumerated entity type (RFC 53).
    NoSuchChoice(EntityUID),
    /// The context isn't of the action's type of contexts, or names what doesn't exist.
    Context(ValueFault),
    /// A growth was refused.
    Memory(Memory),
}

impl From<Memory> for RequestFault {
    ghost use Rattle.std.specs.Prelude.{◌≡◌};
    ghost use Rattle.cedar_conformance.specs.declared.request_fault.RequestFault.TheVariants.{Memory as MemoryFault};

    ghost from_gives = { λ memory fault. fault ≡ MemoryFault memory };

    fn from(memory: Memory) -> Self {
        RequestFault::Memory(memory)
    }
}
