//! Entity types of a schema.

use crate::asked::{Question, Rows, check};
use crate::types::test_values::{PLACE, made, text};
use cedar_ast::{Eid, EntityType, Name, NonEmpty};
use cedar_schema_elements::ValidatorEntityType;
use cedar_types::{Attributes, OpenTag, Type};
use checked::holds;
use checked::names::{entity_type, entity_types, internal_name};
use std::alloc::Global;
use std::test::Fail;

/// The attributes `a: Long` and `b?: Set<Foo>`.
fn attributes(alloc: Global) -> Result<Attributes, Fail> {
    match made(alloc, "mixed")? {
        Type::Record { attrs, .. } => Ok(attrs),
        _ => Err(Fail::from("no record")),
    }
}

/// The standard entity type `User`, with tags, above another.
pub(crate) fn standard(alloc: Global) -> Result<ValidatorEntityType, Fail> {
    let name = entity_type(alloc, "User")?;
    let below = entity_types(alloc, "Foo,Foo")?;
    let attributes = attributes(alloc)?;
    let (open, tags) = (OpenTag::OpenAttributes, Some(Type::Long));
    Ok(ValidatorEntityType::new_standard(alloc, name, below, attributes, open, tags, Some(PLACE))?)
}

/// Two choices.
fn choices(alloc: Global) -> Result<NonEmpty<Eid>, Fail> {
    let tail = vec![in alloc; Eid(text(alloc, "blue")?)]?;
    let head = Eid(text(alloc, "red")?);
    Ok(NonEmpty { head, tail })
}

/// The enumerated entity type `Color`, above others.
pub(crate) fn enumerated(alloc: Global) -> Result<ValidatorEntityType, Fail> {
    let name = entity_type(alloc, "Color")?;
    let below = entity_types(alloc, "Foo,Bar")?;
    Ok(ValidatorEntityType::new_enum(alloc, name, below, choices(alloc)?, None)?)
}

/// The external entity type `Elsewhere`.
pub(crate) fn external(alloc: Global) -> Result<ValidatorEntityType, Fail> {
    let name = entity_type(alloc, "Elsewhere")?;
    Ok(ValidatorEntityType::new_external(alloc, name, Vec::new(alloc), None)?)
}

/// What is asked about a name.
#[derive(Clone, Copy)]
struct AsEntityType;

impl Question for AsEntityType {
    /// What becomes of it where it is shared and taken for an entity type. What is reserved can't be
    /// taken for a name either.
    fn answer(self, alloc: Global, text: &str) -> Result<String, Fail> {
        match EntityType::from_internal(internal_name(alloc, text)?.into_shared()?) {
            Ok(ty) => Ok(format!(in alloc; "{ty} at {:?}", ty.loc())?),
            Err(name) => {
                let answer = format!(in alloc; "reserved {name} at {:?}", name.loc())?;
                holds(Name::new(name).is_none(), text)?;
                Ok(answer)
            }
        }
    }
}

/// Names, each with the entity type that it becomes or the name that is given back, and where that
/// was written.
const NAMES: Rows = &[
    ("T", "T at None"),
    (
        "N::T@1",
        "N::T at Some(Loc { source: 1, start: 2, stop: 5 })",
    ),
    ("__cedar", "reserved __cedar at None"),
    (
        "N::__cedar::T@2",
        "reserved N::__cedar::T at Some(Loc { source: 2, start: 2, stop: 5 })",
    ),
];

#[test]
fn names_that_are_reserved_are_given_back(rt: HostRuntime) -> Result<(), Fail> {
    check(rt.alloc(), &[(AsEntityType, NAMES)])
}
