//! What doesn't fit in a value, and where.

ghost use Rattle.std.specs.Prelude.{◌≡◌, ◌∷◌, [], IfOk};
ghost use Rattle.cedar_conformance.specs.Plain.{fault_of, kind_of, noted_fault, step_of, under_step};

use cedar_ast::{EntityUID, M, Name};
use cedar_types::Type;
use std::alloc::Global;

/// A step down a value.
#[derive(Debug, Drop, PartialEq, Eq)]
pub enum ValueStep {
    /// To the value of the attribute of that name, in a record.
    Attribute(String),
    /// To the element at that index, in a set as it is given.
    Element(usize),
}

/// What is wrong with a part of a value.
#[derive(Debug, Drop, PartialEq, Eq)]
pub enum ValueFaultKind {
    /// It isn't of the type that is wanted there.
    WrongType(Type),
    /// It is a record without that attribute, which has to be there.
    MissingAttribute(String),
    /// It is a record with that attribute, which its type doesn't list.
    UnexpectedAttribute(String),
    /// It calls that function, which isn't known.
    UnknownFunction(Name),
    /// It names that entity, which doesn't exist: the id is no choice of an enumerated entity type,
    /// or the schema has no such action.
    NoSuchChoice(EntityUID),
}

/// A fault of a value: the steps to the part that is at fault, and what is wrong with it.
#[derive(Debug, Drop, PartialEq, Eq)]
pub struct ValueFault {
    /// The steps down the value.
    pub steps: Vec<ValueStep>,
    /// What is wrong there.
    pub kind: ValueFaultKind,
}

/// A fault of the value itself, with no steps to it.
pub(crate) fn here(alloc: Global, kind: ValueFaultKind) -> ValueFault
    ensures { noted_fault result ≡ record { steps = []; kind = kind_of kind } }
{
    ValueFault {
        steps: Vec::new(alloc),
        kind,
    }
}

/// A fault of a part to which one more step leads. Steps are noted on the way up, the last one
/// first.
pub(crate) fn under(step: ValueStep, fault: ValueFault) -> M<ValueFault>
    ensures { IfOk result (λ it. noted_fault it ≡ under_step (step_of step) (noted_fault fault)) }
{
    let ValueFault { steps, kind } = fault;
    let mut steps = steps;
    steps.push(step)?;
    Ok(ValueFault { steps, kind })
}

/// A fault whose steps were noted on the way up, with its steps in the order in which they lead
/// down.
pub(crate) fn turned(fault: ValueFault) -> ValueFault
    ensures { fault_of result ≡ noted_fault fault }
{
    let ValueFault { steps, kind } = fault;
    let mut steps = steps;
    steps.reverse();
    ValueFault { steps, kind }
}
