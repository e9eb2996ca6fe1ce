//! Which attributes records have, where they aren't yet part of a type.

use cedar_types::{Attributes, OpenTag};

/// The shape of records: which attributes they have, and whether they may have others.
#[derive(Clone, Copy, Debug)]
pub struct RecordShape<'a> {
    /// The attributes.
    pub attributes: &'a Attributes,
    /// Whether a record may have attributes that aren't listed.
    pub openness: OpenTag,
}
