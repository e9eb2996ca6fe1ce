//! What is shown of a value, with all that it holds.

use cedar_ast::M;
use std::alloc::Global;
use std::fmt::Debug;

/// What is shown of a value.
pub(crate) fn shown<T: Debug + Drop>(alloc: Global, value: T) -> M<String> {
    Ok(format!(in alloc; "{value:?}")?)
}

/// Whether a value is shown as a text.
fn is_shown_as<T: Debug>(alloc: Global, value: &T, text: &str) -> bool {
    match format!(in alloc; "{value:?}") {
        Ok(shown) => shown.as_str() == text,
        Err(_) => false,
    }
}

/// Whether a copy is made, and shown as the value is that it is made of.
pub(crate) fn is_alike<T: Debug + Drop>(alloc: Global, copy: M<T>, value: &T) -> bool {
    match (copy, format!(in alloc; "{value:?}")) {
        (Ok(copy), Ok(shown)) => is_shown_as(alloc, &copy, shown.as_str()),
        _ => false,
    }
}

/// Whether something is made, and shown as a part of a text.
pub(crate) fn stands_in<T: Debug + Drop, E: Drop>(
    alloc: Global,
    made: Result<T, E>,
    text: &str,
) -> bool {
    match made {
        Ok(made) => match shown(alloc, made) {
            Ok(shown) => text.contains(shown.as_str()),
            Err(_) => false,
        },
        Err(_) => false,
    }
}
