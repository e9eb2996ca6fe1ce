//! Copies of a fragment.

use crate::stop::Stop;
use cedar_schema::json_schema::{ConditionalName, Fragment, RawName};
use cedar_schema::namespace::ValidatorSchemaFragment;
use cedar_schema_text::fragment_from_text;
use std::alloc::Global;

/// An action in a namespace, below one in another namespace.
const BELOW: &str = "namespace B { action view in A::Action::\"all\"; }";

/// The fragment of one action.
fn written(alloc: Global) -> Result<Fragment<RawName>, Stop> {
    Ok(fragment_from_text(alloc, BELOW, 0)?)
}

/// The text of a copy, which is to be that of what is copied.
fn same(copied: String, shown: &str) -> Result<String, Stop> {
    if copied.as_str() == shown {
        Ok(copied)
    } else {
        Err(Stop::Changed)
    }
}

/// The text of a copy of a fragment as it is written.
pub(crate) fn copied_fragment(alloc: Global) -> Result<String, Stop> {
    let fragment = written(alloc)?;
    let shown = format!(in alloc; "{fragment:?}\n")?;
    let copy = fragment.clone()?;
    same(format!(in alloc; "{copy:?}\n")?, shown.as_str())
}

/// The text of a copy of a fragment whose references say what they may stand for.
fn copied(
    alloc: Global,
    fragment: &ValidatorSchemaFragment<ConditionalName, ConditionalName>,
) -> Result<String, Stop> {
    let shown = format!(in alloc; "{fragment:?}\n")?;
    let copy = fragment.clone()?;
    same(format!(in alloc; "{copy:?}\n")?, shown.as_str())
}

/// The same of the fragment of one action.
pub(crate) fn copied_qualified(alloc: Global) -> Result<String, Stop> {
    let fragment = ValidatorSchemaFragment::from_schema_fragment(alloc, written(alloc)?)?;
    copied(alloc, &fragment)
}
