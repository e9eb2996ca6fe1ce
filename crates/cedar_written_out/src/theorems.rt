//! Laws of how deep and how large types are.

ghost use Rattle.std.specs.Prelude.{◌≡◌, ◌≤◌, false, true};
ghost use Rattle.cedar_type_rules.specs.Ty.{Fields, Ty, end, field, long, record_of, set_of, text};
ghost use Rattle.cedar_type_rules.specs.declared.open_tag.OpenTag.TheVariants.{ClosedAttributes};
ghost use Rattle.cedar_written_out.specs.Words.{Defined, Expr, HasOneDefinition, IsMeasured, Text, type_depth, type_size};
ghost use Rattle.cedar_written_out.specs.declared.figure.Figure.{Figure as Counted};

/// A type is one level deep at least, and no deeper than it has types.
pub fn depth_is_bounded()
    ensures least { (ty : Ty) → 1 ≤ type_depth ty }
    ensures greatest { (ty : Ty) → type_depth ty ≤ type_size ty }
{}

/// How deep and how large some types are: whole numbers, a record without attributes, sets of sets
/// of texts, and a record of two attributes.
pub fn small_types_are_counted()
    ensures number { (type_depth long ≡ 1) × (type_size long ≡ 1) }
    ensures no_attributes { (type_depth (record_of end ClosedAttributes) ≡ 1)
        × (type_size (record_of end ClosedAttributes) ≡ 1) }
    ensures sets { (type_depth (set_of (set_of text)) ≡ 3)
        × (type_size (set_of (set_of text)) ≡ 3) }
    ensures attributes { (one other : Text) → (type_depth (record_of
        (field one true (set_of text) (field other false long end)) ClosedAttributes) ≡ 3)
        × (type_size (record_of
        (field one true (set_of text) (field other false long end)) ClosedAttributes) ≡ 4) }
{}

/// Where no common type has two definitions, there is one thing to be found of an expression: two
/// figures of it are the same, and it doesn't both have one and none.
pub fn one_figure_is_found()
    ensures figures { (defined : Defined) → HasOneDefinition defined → (expr : Expr)
        (figure other : Counted) → IsMeasured defined expr (Some figure)
        → IsMeasured defined expr (Some other)
        → (figure.depth ≡ other.depth) × (figure.size ≡ other.size) }
    ensures none { (defined : Defined) (expr : Expr) (figure : Counted)
        → IsMeasured defined expr (Some figure) → ¬ IsMeasured defined expr None }
{}
