//! Types and values that are measured.

use crate::names::{entity_type, numbered};
use crate::stop::Stop;
use cedar_schema::below::{RestrictedExpr, ValidationMode, Value};
use cedar_schema::{AttributeType, Attributes, OpenTag, Type};
use std::alloc::Global;
use std::collections::BTreeMap;
use std::ops::Range;
use std::rc::Rc;

/// Attributes of one type, which an entity has to have.
fn attributes_of(
    alloc: Global,
    numbers: Range<usize>,
    ty: Type,
) -> Result<Vec<(String, AttributeType)>, Stop> {
    let ty = Rc::new(alloc, ty)?;
    let mut attributes = Vec::new(alloc);
    for number in numbers {
        let name = numbered(alloc, "attribute", number)?;
        attributes.push((name, AttributeType::required_attribute(ty.clone()?)))?;
    }
    Ok(attributes)
}

/// The attributes of some numbers, of whole numbers.
pub(crate) fn attributes(alloc: Global, numbers: Range<usize>) -> Result<Attributes, Stop> {
    let attributes = attributes_of(alloc, numbers, Type::primitive_long())?;
    Ok(Attributes::with_attributes(alloc, attributes)?)
}

/// The record of the attributes of some numbers, of one type.
pub(crate) fn record(
    alloc: Global,
    numbers: Range<usize>,
    ty: Type,
    openness: OpenTag,
) -> Result<Type, Stop> {
    let attributes = attributes_of(alloc, numbers, ty)?;
    Ok(Type::record_with_attributes(alloc, attributes, openness)?)
}

/// The closed record of the attributes of some numbers, of whole numbers.
pub(crate) fn closed_record(alloc: Global, numbers: Range<usize>) -> Result<Type, Stop> {
    record(
        alloc,
        numbers,
        Type::primitive_long(),
        OpenTag::ClosedAttributes,
    )
}

/// A closed record of as many attributes: of whole numbers, but for the last, which is of texts.
pub(crate) fn record_with_text(alloc: Global, count: usize) -> Result<Type, Stop> {
    let last = count.saturating_sub(1);
    let name = numbered(alloc, "attribute", last)?;
    let text = AttributeType::required_attribute(Rc::new(alloc, Type::primitive_string())?);
    let mut attributes = attributes_of(alloc, 0..last, Type::primitive_long())?;
    attributes.push((name, text))?;
    Ok(Type::record_with_attributes(alloc, attributes, OpenTag::ClosedAttributes)?)
}

/// A record of whole numbers, with a value for each attribute.
pub(crate) fn record_value(alloc: Global, numbers: Range<usize>) -> Result<Value, Stop> {
    let mut values = BTreeMap::new(alloc);
    for number in numbers {
        let name = numbered(alloc, "attribute", number)?;
        values.insert(name, RestrictedExpr::Long(1))?;
    }
    Ok(Value::new(RestrictedExpr::Record(values)))
}

/// The types of the entities of one entity type each.
pub(crate) fn entities(alloc: Global, numbers: Range<usize>) -> Result<Vec<Type>, Stop> {
    let mut types = Vec::new(alloc);
    for number in numbers {
        let ty = entity_type(alloc, number)?;
        types.push(Type::named_entity_reference(alloc, ty)?)?;
    }
    Ok(types)
}

/// The union of some entity types.
pub(crate) fn union(alloc: Global, numbers: Range<usize>) -> Result<Type, Stop> {
    let types = entities(alloc, numbers)?;
    Ok(Type::reduce_to_least_upper_bound(alloc, &types, ValidationMode::Permissive)?)
}
