//! The two versions of a schema that a difference parts.

use crate::text::Text;
use cedar_schema::ValidatorSchema;

/// Two versions of a schema: one that admits something, and one that doesn't.
#[derive(Clone, Copy, Drop)]
pub(crate) struct Sides<'a> {
    /// The word for what becomes of it: `lost` or `gained`.
    pub(crate) change: &'static str,
    /// The version that admits it.
    pub(crate) own: &'a ValidatorSchema,
    /// The version that doesn't.
    pub(crate) other: &'a ValidatorSchema,
    /// What the version is called that doesn't.
    pub(crate) other_name: &'static str,
}

impl<'a> Sides<'a> {
    /// Adds what is said of the version that doesn't admit it, with its name.
    pub(crate) fn push_said(&self, text: &mut Text, words: &str) {
        write!(text, "{} {words}", self.other_name);
    }

    /// The versions for what is lost.
    pub(crate) fn of_lost(old: &'a ValidatorSchema, new: &'a ValidatorSchema) -> Self {
        Sides {
            change: "lost",
            own: old,
            other: new,
            other_name: "the new schema",
        }
    }

    /// The versions for what is gained.
    pub(crate) fn of_gained(old: &'a ValidatorSchema, new: &'a ValidatorSchema) -> Self {
        Sides {
            change: "gained",
            own: new,
            other: old,
            other_name: "the old schema",
        }
    }
}
