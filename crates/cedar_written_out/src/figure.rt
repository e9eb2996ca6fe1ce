//! How deep and how large a type is.

ghost use Rattle.std.specs.Prelude.{◌≡◌, ◌+◌, min, max};
ghost use Rattle.cedar_written_out.specs.Words.{most};

/// How deep and how large a type is. A number that would be larger than `u64::MAX` is `u64::MAX`.
#[derive(Clone, Copy, Debug, PartialEq, Eq)]
pub struct Figure {
    /// How many types stand in one another: 1 of a primitive type, an entity type, an extension
    /// type and a record without attributes, and of a set or another record one more than of the
    /// deepest type in it.
    pub depth: u64,
    /// How many types there are: the type itself, and all that stand in it, each as often as it
    /// stands there.
    pub size: u64,
}

impl Figure {
    /// Of a type in which no other stands.
    pub(crate) fn single() -> Self
        ensures depth { result.depth ≡ 1 }
        ensures size { result.size ≡ 1 }
    {
        Figure { depth: 1, size: 1 }
    }

    /// Of a type in which, besides what the figure counts, also a type of another figure stands.
    pub(crate) fn with(self, part: Figure) -> Self
        ensures depth { result.depth ≡ max self.depth (min (part.depth + 1) most) }
        ensures size { result.size ≡ min (self.size + part.size) most }
    {
        Figure {
            depth: self.depth.max(part.depth.saturating_add(1)),
            size: self.size.saturating_add(part.size),
        }
    }
}
