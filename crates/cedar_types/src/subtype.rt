//! Subtyping of types and of entity kinds.

ghost use Rattle.std.specs.Prelude.{◌≡◌, ◌↔◌, IsTrue};
ghost use Rattle.cedar_types.specs.Words.{AttributeBelow, Below, FieldsBelow, FlagsBelow, Included, NamesBelow, OpennessBelow, attribute_of, fields_of, kind_ty, lub_names, lub_ty, ty_of};

use crate::attributes::{AttributeType, Attributes};
use crate::entity_kind::EntityKind;
use crate::entity_lub::EntityLUB;
use crate::types::Type;
use cedar_ast::ValidationMode;
use cedar_type_rules::{BoolType, OpenTag};

/// Whether an attribute's flag fits below another's.
fn flags_fit(lower: bool, upper: bool, mode: ValidationMode) -> bool
    ensures { IsTrue result ↔ FlagsBelow mode lower upper }
{
    match mode {
        ValidationMode::Strict => lower == upper,
        ValidationMode::Permissive => lower || !upper,
    }
}

/// Whether a record with the one openness may be below a record with the other.
fn tags_fit(lower: OpenTag, upper: OpenTag) -> bool
    ensures { IsTrue result ↔ OpennessBelow lower upper }
{
    lower == OpenTag::ClosedAttributes || upper == OpenTag::OpenAttributes
}

/// Whether a record that has each attribute of another has no further name, but where it may have.
fn counts_fit(
    lower: &Attributes,
    upper: &Attributes,
    openness: OpenTag,
    mode: ValidationMode,
) -> bool
    ensures { FieldsBelow mode (fields_of lower.now) (fields_of upper.now)
        → IsTrue result ↔ NamesBelow mode openness (fields_of lower.now) (fields_of upper.now) }
{
    let as_many = lower.attrs.as_slice().len() == upper.attrs.as_slice().len();
    match mode {
        ValidationMode::Strict => as_many,
        ValidationMode::Permissive => match openness {
            OpenTag::OpenAttributes => true,
            OpenTag::ClosedAttributes => as_many,
        },
    }
}

/// Whether each entity type of the one union is one of the other.
///
/// It goes over both together, once.
fn is_included(lower: &EntityLUB, upper: &EntityLUB) -> bool
    ensures { IsTrue result ↔ Included (lub_names lower.now) (lub_names upper.now) }
{
    let mut at = 0;
    for ty in lower.iter() {
        let (place, is_there) = upper.seek(at, ty);
        if !is_there {
            return false;
        }
        at = place;
    }
    true
}

/// Whether two unions have the same entity types.
pub(crate) fn is_same(lower: &EntityLUB, upper: &EntityLUB) -> bool
    ensures { IsTrue result ↔ (lub_names lower.now ≡ lub_names upper.now) }
{
    lower == upper
}

/// Whether the entities of the one union are entities of the other: in strict mode the unions have
/// the same entity types, and in permissive mode the other has each of this one.
pub(crate) fn union_fits(lower: &EntityLUB, upper: &EntityLUB, mode: ValidationMode) -> bool
    ensures { IsTrue result ↔ Below mode (lub_ty lower.now) (lub_ty upper.now) }
{
    match mode {
        ValidationMode::Strict => is_same(lower, upper),
        ValidationMode::Permissive => is_included(lower, upper),
    }
}

impl EntityKind {
    /// Whether the entities of this kind are entities of the other: in strict mode the kinds are
    /// the same, and in permissive mode the other one is any entity or has each entity type of this
    /// one.
    pub fn is_subtype(&self, other: &EntityKind, mode: ValidationMode) -> bool
        ensures { IsTrue result ↔ Below mode (kind_ty self.now) (kind_ty other.now) }
    {
        match (self, other) {
            (EntityKind::AnyEntity, EntityKind::AnyEntity) => true,
            (EntityKind::AnyEntity, EntityKind::Entity(_)) => false,
            (EntityKind::Entity(_), EntityKind::AnyEntity) => mode == ValidationMode::Permissive,
            (EntityKind::Entity(lower), EntityKind::Entity(upper)) => union_fits(
                lower, upper, mode,
            ),
        }
    }
}

/// Whether an attribute is below another: its flag fits and its type is below.
#[cycle(subtype)]
fn attribute_fits(lower: &AttributeType, upper: &AttributeType, mode: ValidationMode) -> bool
    ensures { IsTrue result ↔ AttributeBelow mode (attribute_of lower.now)
        (attribute_of upper.now) }
{
    flags_fit(lower.is_required, upper.is_required, mode)
        && Type::is_subtype(&lower.attr_type, &upper.attr_type, mode)
}

/// Whether the one record has each attribute of the other, with a type below and a flag that fits.
///
/// It goes over the attributes of both together, once.
#[cycle(subtype)]
fn fields_fit(lower: &Attributes, upper: &Attributes, mode: ValidationMode) -> bool
    ensures { IsTrue result ↔ FieldsBelow mode (fields_of lower.now) (fields_of upper.now) }
{
    let own = lower.attrs.as_slice();
    let mut at = 0;
    for (name, attribute) in upper.attrs.as_slice() {
        let (place, is_there) = lower.attrs.seek(at, name);
        if !is_there {
            return false;
        }
        if !attribute_fits(&own[place].1, attribute, mode) {
            return false;
        }
        at = place;
    }
    true
}

impl Type {
    /// Whether the one type is below the other: what has it has the other.
    ///
    /// `Never` is below every type, `True` and `False` are below `Bool`, and every type is below
    /// itself. A set is below a set whose elements have a type that is above, and below the
    /// any-set. Of two records each attribute of the upper is an attribute of the lower whose type
    /// is below; a closed upper lists no fewer names than the lower, and an open record is never
    /// below a closed one. In strict mode records have the same names and flags, and entities the
    /// same kind. In permissive mode an open upper may list fewer names, an attribute that the
    /// upper requires is required in the lower, and an entity is below every union with its types.
    #[cycle(subtype)]
    pub fn is_subtype(a: &Type, b: &Type, mode: ValidationMode) -> bool
        ensures { IsTrue result ↔ Below mode (ty_of a.now) (ty_of b.now) }
    {
        match (a, b) {
            (Type::Never, _) => true,
            (Type::Bool(lower), Type::Bool(upper)) => *upper == BoolType::AnyBool || lower == upper,
            (Type::Long, Type::Long) => true,
            (Type::String, Type::String) => true,
            (Type::Entity(lower), Type::Entity(upper)) => lower.is_subtype(upper, mode),
            (Type::Set { .. }, Type::Set { element_type: None }) => true,
            (
                Type::Set {
                    element_type: Some(lower),
                },
                Type::Set {
                    element_type: Some(upper),
                },
            ) => Type::is_subtype(lower, upper, mode),
            (
                Type::Record {
                    attrs: lower,
                    open_attributes: lower_openness,
                },
                Type::Record {
                    attrs: upper,
                    open_attributes: upper_openness,
                },
            ) => {
                tags_fit(*lower_openness, *upper_openness)
                    && counts_fit(lower, upper, *upper_openness, mode)
                    && fields_fit(lower, upper, mode)
            }
            (Type::ExtensionType { name: lower }, Type::ExtensionType { name: upper }) =>
                lower.is_same(upper),
            _ => false,
        }
    }
}
