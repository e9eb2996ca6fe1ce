//! Whether the any-set stands nowhere in a type.

ghost use Rattle.std.specs.Prelude.{◌↔◌, IsTrue};
ghost use Rattle.cedar_types.specs.Words.{AreClean, IsClean, fields_of, ty_of};

use crate::attributes::Attributes;
use crate::types::Type;

/// Whether the any-set stands nowhere in the type of any attribute.
#[cycle(clean)]
fn are_clean(attrs: &Attributes) -> bool
    ensures { IsTrue result ↔ AreClean (fields_of attrs.now) }
{
    for (_, attribute) in attrs.attrs.as_slice() {
        if !attribute.attr_type.is_without_any_set() {
            return false;
        }
    }
    true
}

impl Type {
    /// Whether the any-set stands nowhere in the type.
    #[cycle(clean)]
    pub(crate) fn is_without_any_set(&self) -> bool
        ensures { IsTrue result ↔ IsClean (ty_of self.now) }
    {
        match self {
            Type::Set { element_type: None } => false,
            Type::Set {
                element_type: Some(element),
            } => element.is_without_any_set(),
            Type::Record { attrs, .. } => are_clean(attrs),
            _ => true,
        }
    }
}
