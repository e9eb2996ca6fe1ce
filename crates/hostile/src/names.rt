//! Names with numbers.

use crate::stop::Stop;
use cedar_schema::below::{Eid, EntityType, EntityUID, InternalName};
use std::alloc::Global;
use std::ops::Range;

/// The entity type of a number. Those of numbers of two digits are in the order of their numbers.
pub(crate) fn entity_type(alloc: Global, number: usize) -> Result<EntityType, Stop> {
    let text = format!(in alloc; "E{number}")?;
    Ok(EntityType::from_str(alloc, text.as_str())?)
}

/// The entity types of some numbers.
pub(crate) fn entity_types(alloc: Global, numbers: Range<usize>) -> Result<Vec<EntityType>, Stop> {
    let mut types = Vec::new(alloc);
    for number in numbers {
        types.push(entity_type(alloc, number)?)?;
    }
    Ok(types)
}

/// The names of some numbers, which may be reserved.
pub(crate) fn internal_names(
    alloc: Global,
    numbers: Range<usize>,
) -> Result<Vec<InternalName>, Stop> {
    let mut names = Vec::new(alloc);
    for number in numbers {
        let text = format!(in alloc; "N{number}")?;
        names.push(InternalName::from_str(alloc, text.as_str())?)?;
    }
    Ok(names)
}

/// The uid of an action of an id.
pub(crate) fn action_uid(alloc: Global, id: &str) -> Result<EntityUID, Stop> {
    let eid = Eid(String::from_str(alloc, id)?);
    Ok(EntityUID::new(EntityType::from_str(alloc, "Action")?, eid, None))
}
