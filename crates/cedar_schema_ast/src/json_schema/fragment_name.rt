//! The forms that the names in a fragment take.

ghost use Rattle.std.specs.Prelude.{IfOk};
ghost use Rattle.cedar_schema_ast.specs.Copies.{AlikeConditional, AlikeEntity, AlikeFull, AlikeRaw};

use crate::json_schema::conditional_name::ConditionalName;
use crate::json_schema::raw_name::RawName;
use cedar_ast::{EntityType, InternalName, M};

/// A form of the names in a fragment: a name as it was written, one that isn't resolved yet, or the
/// full name of what it names.
///
/// The ghost member says when a name is like another: equal, with the same locations.
pub trait FragmentName {
    ghost is_alike: { Self → Self → Type 0 };

    /// An equal name with the same locations. Out of memory is the only refusal.
    fn copied(&self) -> M<Self>
    where
        Self: Sized,
        ensures { IfOk result (is_alike self.now) };
}

impl FragmentName for RawName {
    ghost is_alike = { AlikeRaw };

    fn copied(&self) -> M<Self> {
        self.clone()
    }
}

impl FragmentName for ConditionalName {
    ghost is_alike = { AlikeConditional };

    fn copied(&self) -> M<Self> {
        self.clone()
    }
}

impl FragmentName for InternalName {
    ghost is_alike = { AlikeFull };

    fn copied(&self) -> M<Self> {
        self.clone()
    }
}

impl FragmentName for EntityType {
    ghost is_alike = { AlikeEntity };

    fn copied(&self) -> M<Self> {
        self.clone()
    }
}
