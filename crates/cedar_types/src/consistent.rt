//! Consistency of types with core types.

ghost use Rattle.std.specs.Prelude.{◌≡◌, ◌⊎◌, ◌↔◌, IsTrue, true, false};
ghost use Rattle.std.specs.List.{AllByRecursion};
ghost use Rattle.cedar_types.specs.Words.{IsConsistent, OpenAttributes, core_entity, core_fields_of, core_record, core_ty_of, fields_of, kind_ty, plain_attributes, record_of, ty_of, type_name};

use crate::attributes::{AttributeType, Attributes};
use crate::entity_kind::EntityKind;
use crate::types::Type;
use cedar_ast::{CoreAttributeType, CoreSchemaType, EntityType};
use cedar_type_rules::OpenTag;
use std::collections::BTreeMap;

/// Whether an attribute with this flag may be missing in a record with this openness.
fn may_lack(required: bool, openness: OpenTag) -> bool
    ensures { IsTrue result ↔ ((required ≡ false) ⊎ (openness ≡ OpenAttributes)) }
{
    !required || openness == OpenTag::OpenAttributes
}

/// Whether each of some attributes may be missing in a core record, which may be open.
fn may_lack_all(attributes: &[(String, AttributeType)], is_open: bool) -> bool
    ensures { IsTrue result ↔ AllByRecursion (λ item.
        (item.1.0 ≡ false) ⊎ (is_open ≡ true)) (plain_attributes attributes.now) }
{
    for (_, attribute) in attributes {
        if attribute.is_required && !is_open {
            return false;
        }
    }
    true
}

/// Whether a record is consistent with a core record.
///
/// It goes over the attributes of both together, once.
#[cycle(consistent)]
fn records_fit(
    attrs: &Attributes,
    core: &BTreeMap<String, CoreAttributeType>,
    openness: OpenTag,
    core_is_open: bool,
) -> bool
    ensures { IsTrue result
        ↔ IsConsistent (record_of (fields_of attrs.now) openness)
        (core_record (core_fields_of core.now) core_is_open) }
{
    let own = attrs.attrs.as_slice();
    let mut at = 0;
    for (name, other) in core {
        let (place, is_there) = attrs.attrs.seek(at, name);
        if !may_lack_all(&own[at..place], core_is_open) {
            return false;
        }
        if is_there {
            if !own[place].1.attr_type.is_consistent_with(&other.attr_type) {
                return false;
            }
            at = place + 1;
        } else {
            if !may_lack(other.required, openness) {
                return false;
            }
            at = place;
        }
    }
    may_lack_all(&own[at..], core_is_open)
}

/// Whether the entities of a type are of a kind.
fn kind_fits(kind: &EntityKind, ty: &EntityType) -> bool
    ensures { IsTrue result ↔ IsConsistent (kind_ty kind.now) (core_entity (type_name ty.now)) }
{
    match kind {
        EntityKind::AnyEntity => true,
        EntityKind::Entity(lub) => lub.contains(ty),
    }
}

impl Type {
    /// Whether the type is consistent with a core type: of the same kind, and sets and records with
    /// consistent parts.
    ///
    /// Any set is consistent with the empty set, and what is known of a truth value isn't looked
    /// at. An entity is consistent with one of its types, and any entity with each. An attribute
    /// that only one of two records has is optional there, or the other record is open.
    #[cycle(consistent)]
    pub fn is_consistent_with(&self, core: &CoreSchemaType) -> bool
        ensures { IsTrue result ↔ IsConsistent (ty_of self.now) (core_ty_of core.now) }
    {
        match (self, core) {
            (Type::Bool(_), CoreSchemaType::Bool) => true,
            (Type::Long, CoreSchemaType::Long) => true,
            (Type::String, CoreSchemaType::String) => true,
            (Type::Set { .. }, CoreSchemaType::EmptySet) => true,
            (
                Type::Set {
                    element_type: Some(element),
                },
                CoreSchemaType::Set { element_ty },
            ) => element.is_consistent_with(element_ty),
            (
                Type::Record {
                    attrs,
                    open_attributes,
                },
                CoreSchemaType::Record {
                    attrs: others,
                    open_attrs,
                },
            ) => records_fit(attrs, others, *open_attributes, *open_attrs),
            (Type::Entity(kind), CoreSchemaType::Entity { ty }) => kind_fits(kind, ty),
            (Type::ExtensionType { name }, CoreSchemaType::Extension { name: other }) =>
                name.is_same(other),
            _ => false,
        }
    }
}
