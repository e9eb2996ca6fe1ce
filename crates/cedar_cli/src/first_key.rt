//! The first of two equal keys of an object.

use crate::walk::Walk;
use cedar_ast::{Loc, M};
use cedar_json::JsonSchemaFault;
use std::alloc::Global;

/// Where an object, up to a byte, has a key first.
fn first_before(alloc: Global, text: &str, key: &str, up_to: usize) -> M<Option<usize>> {
    match Walk::up_to(alloc, text, key, up_to)?.innermost() {
        Some(object) => Ok(object.first),
        None => Ok(None),
    }
}

/// Where an object has the key first that it has again at a place, if it is spelled alike there.
fn first_of(alloc: Global, text: &str, again: Loc) -> M<Option<Loc>> {
    let (start, stop) = (again.start as usize, again.stop as usize);
    let Some(key) = text.get(start..stop) else {
        return Ok(None);
    };
    let Some(first) = first_before(alloc, text, key, start)? else {
        return Ok(None);
    };
    let end = first.saturating_add(key.len());
    Ok(Some(Loc {
        source: again.source,
        start: u32::try_from(first).unwrap_or(u32::MAX),
        stop: u32::try_from(end).unwrap_or(u32::MAX),
    }))
}

/// The other place of a fault: of a key that comes twice, where it comes first.
pub(crate) fn first_key(alloc: Global, text: &str, fault: &JsonSchemaFault) -> M<Option<Loc>> {
    match fault {
        JsonSchemaFault::TwiceInObject { at, .. } => match at.loc {
            Some(again) => first_of(alloc, text, again),
            None => Ok(None),
        },
        _ => Ok(None),
    }
}
