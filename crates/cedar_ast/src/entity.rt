//! Entities: a uid with attributes, tags and ancestors.

ghost use Rattle.std.specs.Prelude.{◌≡◌, map};
ghost use Rattle.std.specs.List.Sorted.{IsStrictlySortedBy};
ghost use Rattle.std.specs.Map.Iter.{ShowsInOrder, deref};
ghost use Rattle.cedar_ast.specs.Words.{entity_ancestors, entity_attrs, entity_tags, entity_uid, entity_uid_loc, entity_uid_type_loc, uid_cmp, uid_loc, uid_of, uid_type_loc};

use crate::entity_uid::EntityUID;
use crate::value::Value;
use std::collections::btree_set::Iter;
use std::collections::{BTreeMap, BTreeSet};

/// An entity: its uid, its attributes, its tags, and the uids of its ancestors.
#[derive(Debug)]
pub struct Entity {
    uid: EntityUID,
    attrs: BTreeMap<String, Value>,
    tags: BTreeMap<String, Value>,
    ancestors: BTreeSet<EntityUID>,
}

// Written out: proofs of what holds entities then see one call, and nothing of their parts.
impl Drop for Entity {
    fn drop(self) {
        let Entity {
            uid: _uid,
            attrs: _attrs,
            tags: _tags,
            ancestors: _ancestors,
        } = self;
    }
}

impl Entity {
    /// The entity of this uid, with these attributes, tags and ancestors.
    pub fn new(
        uid: EntityUID,
        attrs: BTreeMap<String, Value>,
        tags: BTreeMap<String, Value>,
        ancestors: BTreeSet<EntityUID>,
    ) -> Self
        ensures uid { entity_uid result ≡ uid_of uid }
        ensures uid_loc { entity_uid_loc result ≡ uid_loc uid }
        ensures uid_type_loc { entity_uid_type_loc result ≡ uid_type_loc uid }
        ensures attrs { entity_attrs result ≡ attrs }
        ensures tags { entity_tags result ≡ tags }
        ensures ancestors { entity_ancestors result ≡ map uid_of ancestors.keys }
    {
        Entity {
            uid,
            attrs,
            tags,
            ancestors,
        }
    }

    /// The entity's uid.
    pub fn uid(&self) -> &EntityUID
        ensures uid { uid_of result.now ≡ entity_uid self.now }
        ensures loc { uid_loc result.now ≡ entity_uid_loc self.now }
        ensures type_loc { uid_type_loc result.now ≡ entity_uid_type_loc self.now }
    {
        &self.uid
    }

    /// The entity's attributes, by name.
    pub fn attrs(&self) -> &BTreeMap<String, Value>
        ensures { result.now ≡ entity_attrs self.now }
    {
        &self.attrs
    }

    /// The entity's tags, by name.
    pub fn tags(&self) -> &BTreeMap<String, Value>
        ensures { result.now ≡ entity_tags self.now }
    {
        &self.tags
    }

    /// The uids of the entity's ancestors, in uid order and without repeats.
    pub fn ancestors(&self) -> Iter<'_, EntityUID>
        ensures ancestors { map uid_of result ≡ entity_ancestors self.now }
        ensures ordered { IsStrictlySortedBy uid_cmp (entity_ancestors self.now) }
        ensures runs { ShowsInOrder (deref {X = EntityUID}) }
    {
        self.ancestors.iter()
    }
}
