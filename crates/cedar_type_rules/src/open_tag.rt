//! Whether a record may have attributes that it does not list.

/// Whether a record type admits attributes that it doesn't list.
#[derive(Clone, Copy, Debug, PartialEq, Eq, PartialOrd, Ord, Hash)]
pub enum OpenTag {
    /// It does.
    OpenAttributes,
    /// It doesn't.
    ClosedAttributes,
}

impl Default for OpenTag {
    ghost use Rattle.std.specs.Prelude.{◌≡◌};
    ghost use Rattle.cedar_type_rules.specs.declared.open_tag.OpenTag.TheVariants.{ClosedAttributes};

    ghost is_default = { λ openness. openness ≡ ClosedAttributes };

    /// A record type is closed where nothing is said.
    fn default() -> OpenTag {
        OpenTag::ClosedAttributes
    }
}
