//! Which entities exist.

ghost use Rattle.std.specs.Prelude.{◌↔◌, Contains, IsTrue, map};
ghost use Rattle.cedar_schema.specs.Words.{Exists, IsIdOf, MayHaveId, MayStandAbove, eid_text, items_of, plain_kind, schema_of, type_name, uid_of};

use crate::schema::ValidatorSchema;
use cedar_ast::{Eid, EntityType, EntityUID, NonEmpty};
use cedar_schema_elements::ValidatorEntityTypeKind;

/// Whether an id is one of some choices.
fn has_choice(choices: &NonEmpty<Eid>, eid: &Eid) -> bool
    ensures { IsTrue result ↔ Contains (map eid_text (items_of choices.now)) (eid_text eid.now) }
{
    choices.head == *eid || choices.tail.contains(eid)
}

/// Whether an entity of a kind may have the id: of an enumerated type it has to be a choice.
fn kind_has_id(kind: &ValidatorEntityTypeKind, eid: &Eid) -> bool
    ensures { IsTrue result ↔ IsIdOf (plain_kind kind.now) (eid_text eid.now) }
{
    match kind {
        ValidatorEntityTypeKind::Enum(choices) => has_choice(choices, eid),
        ValidatorEntityTypeKind::Standard(_) => true,
        ValidatorEntityTypeKind::External => true,
    }
}

impl ValidatorSchema {
    /// Whether an entity exists: of an enumerated entity type of the schema its choices do and no
    /// others (RFC 53), of a type of actions the schema's actions, external ones too, and of any
    /// other type, declared or not, every one. An entity that exists need not be in any data.
    ///
    /// `typecheck_value` and `euid_literal` look at the type of a uid alone, and not at this.
    pub fn entity_exists(&self, uid: &EntityUID) -> bool
        ensures { IsTrue result ↔ Exists (schema_of self.now) (uid_of uid.now) }
    {
        if uid.entity_type().is_action() && !self.is_known_action_id(uid) {
            return false;
        }
        self.may_have_id(uid)
    }

    /// Whether the entity type of a uid may have its id: of an enumerated entity type of the schema
    /// it has to be a choice (RFC 53), and any other may have every id.
    pub fn may_have_id(&self, uid: &EntityUID) -> bool
        ensures { IsTrue result ↔ MayHaveId (schema_of self.now) (uid_of uid.now) }
    {
        match self.get_entity_type(uid.entity_type()) {
            Some(ty) => kind_has_id(&ty.kind, uid.eid()),
            None => true,
        }
    }

    /// Whether an entity may stand above those of an entity type: its own entity type has that one
    /// among its descendants, and has the entity's id among its choices if it is enumerated.
    pub fn may_stand_above(&self, ty: &EntityType, upper: &EntityUID) -> bool
        ensures { IsTrue result
            ↔ MayStandAbove (schema_of self.now) (type_name ty.now) (uid_of upper.now) }
    {
        match self.get_entity_type(upper.entity_type()) {
            Some(found) => {
                found.has_descendant_entity_type(ty) && kind_has_id(&found.kind, upper.eid())
            }
            None => false,
        }
    }
}
