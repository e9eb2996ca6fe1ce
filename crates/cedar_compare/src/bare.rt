//! Entities without attributes and tags.

ghost use Rattle.std.specs.Prelude.{◌≡◌, ◌↔◌, IsTrue, []};
ghost use Rattle.cedar_compare.specs.Words.{AreAncestorsIn, Extensions, Has, IsEntityOfType, IsKeyed, MayStandAbove, MayStandOver, OpenTag, entity_ancestors, entity_attrs, entity_tags, fields_of, map_value, named_values, no_entry, plain_action_entity, record_of, schema_of, type_name, uid_of};

use crate::choices::{choices_of, has_choice};
use crate::looking_up::find_type;
use cedar_ast::{Entity, EntityType, EntityUID};
use cedar_schema::{ValidatorEntityTypeKind, ValidatorSchema};
use cedar_types::Attributes;

/// Whether no attribute is required.
fn requires_nothing(attrs: &Attributes) -> bool
    ensures { (extensions : Extensions) (openness : OpenTag) → IsTrue result
        ↔ Has extensions (map_value no_entry) (record_of (fields_of attrs.now) openness) }
{
    for (_, attribute) in attrs.iter() {
        if attribute.is_required() {
            return false;
        }
    }
    true
}

/// Whether a uid may stand above entities of a type.
fn may_stand_above(schema: &ValidatorSchema, name: &EntityType, upper: &EntityUID) -> bool
    requires { IsKeyed (schema_of schema.now) }
    ensures { IsTrue result
        ↔ MayStandAbove (schema_of schema.now) (type_name name.now) (uid_of upper.now) }
{
    let Some(ty) = find_type(schema, upper.entity_type()) else {
        return false;
    };
    if !ty.has_descendant_entity_type(name) {
        return false;
    }
    match choices_of(&ty.kind) {
        Some(choices) => has_choice(choices, upper.eid()),
        None => true,
    }
}

/// Whether a uid may stand above an entity: it isn't the entity, and may stand above its type.
fn may_stand_over(schema: &ValidatorSchema, lower: &EntityUID, upper: &EntityUID) -> bool
    requires { IsKeyed (schema_of schema.now) }
    ensures { IsTrue result
        ↔ MayStandOver (schema_of schema.now) (uid_of lower.now) (uid_of upper.now) }
{
    if upper == lower {
        return false;
    }
    may_stand_above(schema, lower.entity_type(), upper)
}

/// Whether each ancestor of an entity may stand above those of its type, and isn't the entity
/// itself.
fn may_all_stand_above(schema: &ValidatorSchema, entity: &Entity) -> bool
    requires { IsKeyed (schema_of schema.now) }
    ensures { IsTrue result
        ↔ AreAncestorsIn (schema_of schema.now) (plain_action_entity entity.now) }
{
    for upper in entity.ancestors() {
        if !may_stand_over(schema, entity.uid(), upper) {
            return false;
        }
    }
    true
}

/// Whether an entity has no ancestors.
pub(crate) fn is_without_ancestors(entity: &Entity) -> bool
    ensures { IsTrue result ↔ (entity_ancestors entity.now ≡ []) }
{
    match entity.ancestors().next() {
        Some(_) => false,
        None => true,
    }
}

/// Whether an entity without attributes and tags is of an entity type of a schema.
pub(crate) fn is_bare_of_type(schema: &ValidatorSchema, entity: &Entity) -> bool
    requires keyed { IsKeyed (schema_of schema.now) }
    requires attributes { named_values (entity_attrs entity.now) ≡ no_entry }
    requires tags { named_values (entity_tags entity.now) ≡ no_entry }
    ensures { (extensions : Extensions) → IsTrue result
        ↔ IsEntityOfType extensions (schema_of schema.now) (plain_action_entity entity.now) }
{
    let Some(ty) = find_type(schema, entity.uid().entity_type()) else {
        return false;
    };
    match &ty.kind {
        ValidatorEntityTypeKind::Standard(_) => {
            requires_nothing(ty.attributes()) && may_all_stand_above(schema, entity)
        }
        ValidatorEntityTypeKind::Enum(choices) => {
            has_choice(choices, entity.uid().eid()) && is_without_ancestors(entity)
        }
        ValidatorEntityTypeKind::External => false,
    }
}
