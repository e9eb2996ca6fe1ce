//! Uids that a schema doesn't name.

ghost use Rattle.std.specs.Prelude.{◌<◌, ◌≤◌, IfOk, length};
ghost use Rattle.cedar_compare.specs.Words.{HasAction, IsFreshIn, IsKeyed, NoLongerChoice, Text, schema_of, type_name, uid_of};

use crate::choices::{choices_of, id_of_length, longest_choice};
use crate::looking_up::find_type;
use cedar_ast::{EntityType, EntityUID, M};
use cedar_schema::ValidatorSchema;
use std::alloc::Global;

/// The length of the longest id of a schema's actions of a type, or 0 where there is none.
fn longest_action_id(schema: &ValidatorSchema, name: &EntityType) -> usize
    ensures { (id : Text)
        → HasAction (schema_of schema.now) (record { ty = type_name name.now; eid = id })
        → length id ≤ result }
{
    let mut longest = 0;
    for uid in schema.actions() {
        if uid.entity_type() == name {
            longest = longest.max(uid.eid().as_str().len());
        }
    }
    longest
}

/// The length of the longest choice of the entity type of a name, or 0 where it has none.
fn longest_choice_of(schema: &ValidatorSchema, name: &EntityType) -> usize
    requires { IsKeyed (schema_of schema.now) }
    ensures { NoLongerChoice (schema_of schema.now) (type_name name.now) result }
{
    match find_type(schema, name) {
        Some(ty) => match choices_of(&ty.kind) {
            Some(choices) => longest_choice(choices),
            None => 0,
        },
        None => 0,
    }
}

/// A uid of a type that a schema doesn't name, with an id of more bytes than a number says.
pub(crate) fn fresh_uid(
    alloc: Global,
    schema: &ValidatorSchema,
    name: &EntityType,
    count: usize,
) -> M<EntityUID>
    requires { IsKeyed (schema_of schema.now) }
    ensures fresh { IfOk result (λ uid. IsFreshIn (schema_of schema.now) (type_name name.now)
        (uid_of uid)) }
    ensures longer { IfOk result (λ uid. count < length (uid_of uid).eid) }
{
    let longest = longest_action_id(schema, name).max(longest_choice_of(schema, name));
    let eid = id_of_length(alloc, longest.max(count))?;
    Ok(EntityUID::new(name.clone()?, eid, None))
}
