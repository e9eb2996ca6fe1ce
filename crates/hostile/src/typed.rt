//! Types that are joined, and what they are without unions.

use crate::by_hand::attributes;
use crate::names::entity_type;
use crate::stop::Stop;
use cedar_schema::below::ValidationMode;
use cedar_schema::{OpenTag, Type, core_type_of};
use std::alloc::Global;
use std::ops::Range;

/// The types of the entities of one entity type each.
fn entities(alloc: Global, numbers: Range<usize>) -> Result<Vec<Type>, Stop> {
    let mut types = Vec::new(alloc);
    for number in numbers {
        let ty = entity_type(alloc, number)?;
        types.push(Type::named_entity_reference(alloc, ty)?)?;
    }
    Ok(types)
}

/// The union of some entity types.
pub(crate) fn union(alloc: Global, numbers: Range<usize>) -> Result<Type, Stop> {
    let types = entities(alloc, numbers)?;
    Ok(Type::reduce_to_least_upper_bound(alloc, &types, ValidationMode::Permissive)?)
}

/// The text of the union of four entity types.
pub(crate) fn reduced(alloc: Global) -> Result<String, Stop> {
    let union = union(alloc, 10..14)?;
    Ok(format!(in alloc; "{union}\n")?)
}

/// The text of the core type of a record.
pub(crate) fn core_type(alloc: Global) -> Result<String, Stop> {
    let record = Type::Record {
        attrs: attributes(alloc, 1)?,
        open_attributes: OpenTag::ClosedAttributes,
    };
    let core = core_type_of(alloc, record)?;
    Ok(format!(in alloc; "{core:?}\n")?)
}
