//! Names that texts spell, and locations. A text that spells no name fails by name.

use cedar_ast::{Eid, EntityType, EntityUID, InternalName, Loc, Name, UnreservedId};
use cedar_schema_ast::json_schema::RawName;
use std::alloc::Global;
use std::test::Fail;

/// The text of no names in a list.
pub const NONE: &str = "-";

/// What stands before an `@` and a number at the end of a text, and the location in the text of
/// that number; or the whole text, and no location.
pub fn located_at(text: &str) -> (&str, Option<Loc>) {
    let Some((before, number)) = text.rsplit_once('@') else {
        return (text, None);
    };
    match number.parse::<u32>() {
        Ok(source) => {
            let (start, stop) = (2, 5);
            let loc = Loc {
                source,
                start,
                stop,
            };
            (before, Some(loc))
        }
        Err(_) => (text, None),
    }
}

/// The identifier that a text spells, which isn't the reserved word.
pub fn unreserved_id(alloc: Global, text: &str) -> Result<UnreservedId, Fail> {
    Ok(UnreservedId::from_str(alloc, text)?)
}

/// The name whose parts stand between `::` in a text, with a location behind them. It may be
/// reserved.
pub fn internal_name(alloc: Global, text: &str) -> Result<InternalName, Fail> {
    let (text, loc) = located_at(text);
    Ok(InternalName::from_str(alloc, text)?.with_loc(loc))
}

/// The name of such a text, which isn't reserved.
pub fn name(alloc: Global, text: &str) -> Result<Name, Fail> {
    match Name::new(internal_name(alloc, text)?) {
        Some(name) => Ok(name),
        None => Err(Fail::new(format_args!("a reserved name: {text}"))),
    }
}

/// The name of such a text, which may be reserved, or None for no text.
pub fn internal_namespace(alloc: Global, text: &str) -> Result<Option<InternalName>, Fail> {
    if text.is_empty() {
        return Ok(None);
    }
    Ok(Some(internal_name(alloc, text)?))
}

/// The entity type of such a text.
pub fn entity_type(alloc: Global, text: &str) -> Result<EntityType, Fail> {
    Ok(EntityType::new(name(alloc, text)?))
}

/// The entity types that stand between commas, or none for `-`.
pub fn entity_types(alloc: Global, text: &str) -> Result<Vec<EntityType>, Fail> {
    let mut types = Vec::new(alloc);
    if text == NONE {
        return Ok(types);
    }
    for part in text.split(',') {
        types.push(entity_type(alloc, part)?)?;
    }
    Ok(types)
}

/// The uid whose type stands before the last `::` of a text, and its id behind it.
pub fn uid(alloc: Global, text: &str) -> Result<EntityUID, Fail> {
    let Some((ty, id)) = text.rsplit_once("::") else {
        return Err(Fail::new(format_args!("no uid: {text}")));
    };
    let ty = entity_type(alloc, ty)?;
    Ok(EntityUID::new(ty, Eid(String::from_str(alloc, id)?), None))
}

/// The uids that stand between commas, or none for `-`.
pub fn uids(alloc: Global, text: &str) -> Result<Vec<EntityUID>, Fail> {
    let mut uids = Vec::new(alloc);
    if text == NONE {
        return Ok(uids);
    }
    for part in text.split(',') {
        uids.push(uid(alloc, part)?)?;
    }
    Ok(uids)
}

/// The reference that is written as such a text.
pub fn raw(alloc: Global, text: &str) -> Result<RawName, Fail> {
    Ok(RawName::new(internal_name(alloc, text)?))
}
