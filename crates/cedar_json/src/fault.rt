//! Refusals, with the place of what is refused.

ghost use Rattle.std.specs.Prelude.{◌≡◌, ◌≢◌, Some};
ghost use Rattle.json.specs.Json.{Json};
ghost use Rattle.json.specs.Find.{get};
ghost use Rattle.cedar_json.specs.Words.{IsFault, IsTrueOf, step_into};

use cedar_ast::Memory;
use std::alloc::{AllocError, AllocFailed, Global};

/// A step into a JSON value.
#[derive(Clone, Copy, Debug, Drop, PartialEq, Eq)]
pub enum Step {
    /// To the value of a field of an object.
    Field(&'static str),
    /// To the value of the member at this index of an object, in the order of the text.
    Member(usize),
    /// To the item at this index of an array.
    Item(usize),
}

/// The objects whose fields the format lists.
#[derive(Clone, Copy, Debug, Drop, PartialEq, Eq)]
pub enum Row {
    /// A type.
    OfType,
    /// The declaration of a common type.
    OfCommonType,
    /// An attribute of a record type.
    OfAttribute,
    /// The declaration of an entity type that lists no ids.
    OfEntityType,
    /// The declaration of an entity type that lists the ids of its entities.
    OfEnumeratedType,
    /// The declaration of an action.
    OfAction,
    /// The requests that an action is for.
    OfAppliesTo,
    /// A parent of an action.
    OfParent,
    /// A reference to an entity in a value.
    OfEntityUid,
    /// A call of an extension function in a value.
    OfCall,
    /// The definition of a namespace.
    OfDefinition,
}

/// The kinds of JSON value that the format asks for.
#[derive(Clone, Copy, Debug, Drop, PartialEq, Eq)]
pub enum Expected {
    /// A text.
    Text,
    /// An object.
    Object,
    /// An array.
    Array,
    /// `true` or `false`.
    Flag,
    /// A text or `null`.
    TextOrNull,
    /// A value other than `null`.
    NoNull,
}

/// What is wrong with a JSON value.
#[derive(Clone, Copy, Debug, Drop, PartialEq, Eq)]
pub enum FaultKind {
    /// A field is missing.
    Missing(&'static str),
    /// The member at this index is a field that the object may not have.
    UnknownField(Row, usize),
    /// Another kind of value is wanted.
    Wants(Expected),
    /// The text is no name.
    NoName,
    /// The text is no identifier.
    NoId,
    /// The text is the reserved word `__cedar`.
    ReservedId,
    /// The key of the member at this index is no identifier.
    KeyIsNoId(usize),
    /// The array is empty where an id has to be listed.
    NoChoices,
    /// The text is a name that is reserved: a part of it is `__cedar`.
    ReservedName,
    /// The number is no whole one from -2^63 to 2^63 - 1, written without fraction and exponent, or
    /// is `-0`.
    NoLong,
    /// The key of the member at this index is the reserved word `__cedar`.
    KeyIsReserved(usize),
    /// The key of the member at this index names a type of Cedar's own.
    KeyIsTypeWord(usize),
    /// The key of the member at this index is not empty and no name.
    KeyIsNoName(usize),
    /// The key of the member at this index is a name that is reserved.
    KeyIsReservedName(usize),
}

/// Why a JSON value is refused, or out of memory.
#[derive(Drop)]
pub(crate) enum Fault {
    /// What is wrong with the value to which the steps lead, the last of them first.
    At(Vec<Step>, FaultKind),
    /// Out of memory.
    Memory,
}

impl Fault {
    /// A fault of the value itself.
    pub(crate) fn here(alloc: Global, kind: FaultKind) -> Fault
        ensures place { (j : Json) → IsFault kind j → IsTrueOf result j }
        ensures memory { result ≢ Fault.Memory }
    {
        Fault::At(Vec::new(alloc), kind)
    }

    /// The same fault, seen from a value from which a step leads to it, or out of memory.
    pub(crate) fn behind(self, step: Step) -> Fault
        ensures place { (j k : Json) → step_into step j ≡ Some k → IsTrueOf self k
            → IsTrueOf result j }
        ensures memory { result ≢ Fault.Memory → self ≢ Fault.Memory }
    {
        match self {
            Fault::At(mut steps, kind) => match steps.push(step) {
                Ok(()) => Fault::At(steps, kind),
                Err(_) => Fault::Memory,
            },
            Fault::Memory => Fault::Memory,
        }
    }

    /// The same fault, seen from the object that has the field.
    pub(crate) fn within(self, name: &'static str) -> Fault
        ensures place { (j k : Json) → get name.now j ≡ Some k → IsTrueOf self k
            → IsTrueOf result j }
        ensures memory { result ≢ Fault.Memory → self ≢ Fault.Memory }
    {
        self.behind(Step::Field(name))
    }
}

impl From<Memory> for Fault {
    ghost use Rattle.std.specs.Prelude.{◌≡◌};
    ghost use Rattle.cedar_json.specs.declared.fault.Fault.TheVariants as fault;

    ghost from_gives = { λ _ it. it ≡ fault.Memory };

    fn from(_refused: Memory) -> Fault {
        Fault::Memory
    }
}

impl From<AllocError> for Fault {
    ghost use Rattle.std.specs.Prelude.{◌≡◌};
    ghost use Rattle.cedar_json.specs.declared.fault.Fault.TheVariants as fault;

    ghost from_gives = { λ _ it. it ≡ fault.Memory };

    fn from(_refused: AllocError) -> Fault {
        Fault::Memory
    }
}

impl<T: Drop> From<AllocFailed<T>> for Fault {
    ghost use Rattle.std.specs.Prelude.{◌≡◌};
    ghost use Rattle.cedar_json.specs.declared.fault.Fault.TheVariants as fault;

    ghost from_gives = { λ _ it. it ≡ fault.Memory };

    fn from(_refused: AllocFailed<T>) -> Fault {
        Fault::Memory
    }
}
