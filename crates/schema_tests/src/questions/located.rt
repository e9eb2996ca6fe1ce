//! Names with the number of the text behind them where they were written, if that isn't the first.

use cedar_schema::below::{EntityType, EntityUID, Loc, M};
use schema_lines::uid_text;
use std::alloc::Global;

/// A text with the number of the text where it was written, if it was, and not in the first.
pub(crate) fn with_number(alloc: Global, text: String, loc: Option<Loc>) -> M<String> {
    match loc {
        Some(Loc { source, .. }) if source != 0 => Ok(format!(in alloc; "{text}@{source}")?),
        _ => Ok(text),
    }
}

/// The name of an entity type, with the number of its text.
pub(crate) fn located_type(alloc: Global, ty: &EntityType) -> M<String> {
    with_number(alloc, ty.to_string(alloc)?, ty.loc())
}

/// A uid, with the number of its text.
pub(crate) fn located_uid(alloc: Global, uid: &EntityUID) -> M<String> {
    with_number(alloc, uid_text(alloc, uid)?, uid.loc())
}
