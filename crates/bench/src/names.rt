//! Names with numbers, of what is measured.

use crate::stop::Stop;
use cedar_schema::below::EntityType;
use std::alloc::Global;
use std::ops::Range;

/// Letters, with a number of eight digits after them.
#[derive(Clone, Copy)]
pub(crate) enum Letters {
    /// Those with which all names have one hash, where the seed is that of a hash map of std: the
    /// hasher multiplies what it has by the last sixteen bytes, of which the first eight are just
    /// what makes a factor zero.
    Alike,
    /// As many, with which they have one hash with the first seed of the tables of schemas.
    AlikeInTables,
    /// As many, with which they have unlike ones.
    Apart,
}

impl Letters {
    /// The letters.
    pub(crate) fn text(self) -> &'static str {
        match self {
            Letters::Alike => "FloodOf000017770VMgAjaq9",
            Letters::AlikeInTables => "FloodOf000178688m2N1v7BI",
            Letters::Apart => "FloodOf000017771VMgAjaq9",
        }
    }
}

/// Some letters with a number after them.
pub(crate) fn numbered(alloc: Global, letters: &str, number: usize) -> Result<String, Stop> {
    Ok(format!(in alloc; "{letters}{number}")?)
}

/// The entity type of a number.
pub(crate) fn entity_type(alloc: Global, number: usize) -> Result<EntityType, Stop> {
    lettered(alloc, "E", number)
}

/// The entity type of some letters and a number.
pub(crate) fn lettered(alloc: Global, letters: &str, number: usize) -> Result<EntityType, Stop> {
    Ok(EntityType::from_str(alloc, numbered(alloc, letters, number)?.as_str())?)
}

/// The entity types of some numbers.
pub(crate) fn entity_types(alloc: Global, numbers: Range<usize>) -> Result<Vec<EntityType>, Stop> {
    let mut types = Vec::new(alloc);
    for number in numbers {
        types.push(entity_type(alloc, number)?)?;
    }
    Ok(types)
}
