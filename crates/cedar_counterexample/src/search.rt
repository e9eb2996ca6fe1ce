//! What a search for a value is given: memory, extensions and samples.

use cedar_ast::{Extensions, Value};
use std::alloc::Global;

/// What a search for a value is given: where memory comes from, the extensions that may be called,
/// and samples of extension types.
#[derive(Clone, Copy)]
pub(crate) struct Search<'a> {
    pub(crate) alloc: Global,
    pub(crate) extensions: &'a Extensions,
    pub(crate) samples: &'a [Value],
}
