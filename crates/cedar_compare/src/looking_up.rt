//! What stands under a name in a schema.

ghost use Rattle.std.specs.Prelude.{◌↔◌, IsTrue};
ghost use Rattle.std.specs.Option.{option_copied, option_map};
ghost use Rattle.cedar_compare.specs.Words.{AreChoicesAt, IsActionAt, IsEnumerated, IsKeyed, IsOfKind, IsTypeAt, ListsDescendant, action_of, choice_texts, plain_type, schema_of, type_name, uid_of};

use crate::choices::choices_of;
use cedar_ast::{Eid, EntityType, EntityUID, NonEmpty};
use cedar_schema::{ValidatorActionId, ValidatorEntityType, ValidatorSchema};

/// The entity type of a name.
pub(crate) fn find_type<'a>(
    schema: &'a ValidatorSchema,
    name: &EntityType,
) -> Option<&'a ValidatorEntityType>
    ensures { IsTypeAt (schema_of schema.now) (type_name name.now)
        (option_map plain_type (option_copied result)) }
{
    schema.get_entity_type(name)
}

/// The action of a uid.
pub(crate) fn find_action<'a>(
    schema: &'a ValidatorSchema,
    uid: &EntityUID,
) -> Option<&'a ValidatorActionId>
    ensures { IsActionAt (schema_of schema.now) (uid_of uid.now)
        (option_map action_of (option_copied result)) }
{
    schema.get_action_id(uid)
}

/// Whether the entity type of a name is enumerated.
pub(crate) fn is_enumerated_at(schema: &ValidatorSchema, name: &EntityType) -> bool
    requires { IsKeyed (schema_of schema.now) }
    ensures { IsTrue result
        ↔ IsOfKind (schema_of schema.now) (type_name name.now) (λ kind. IsEnumerated kind) }
{
    match find_type(schema, name) {
        Some(ty) => ty.is_enumerated(),
        None => false,
    }
}

/// Whether the one entity type is among the descendants of the other.
pub(crate) fn lists_type(schema: &ValidatorSchema, lower: &EntityType, upper: &EntityType) -> bool
    requires { IsKeyed (schema_of schema.now) }
    ensures { IsTrue result
        ↔ ListsDescendant (schema_of schema.now) (type_name lower.now) (type_name upper.now) }
{
    match find_type(schema, upper) {
        Some(ty) => ty.has_descendant_entity_type(lower),
        None => false,
    }
}

/// The choices of the entity type of a name, if it is enumerated.
pub(crate) fn choices_at<'a>(
    schema: &'a ValidatorSchema,
    name: &EntityType,
) -> Option<&'a NonEmpty<Eid>>
    ensures { AreChoicesAt (schema_of schema.now) (type_name name.now)
        (option_map choice_texts (option_copied result)) }
{
    match find_type(schema, name) {
        Some(ty) => choices_of(&ty.kind),
        None => None,
    }
}
