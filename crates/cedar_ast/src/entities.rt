//! Collections of entities by uid.

ghost use Rattle.cedar_ast.specs.KeyedEntities.{IsKeyed};

use crate::entity::Entity;
use crate::entity_uid::EntityUID;
use crate::memory::M;
use std::alloc::Global;
use std::collections::BTreeMap;
use std::collections::btree_map::Values;

/// Entities by uid: at most one of each uid, in uid order.
#[derive(Debug)]
pub struct Entities {
    entities: BTreeMap<EntityUID, Entity>,
    ghost keyed: { IsKeyed entities },
}

// Written out: proofs of what holds entities then see one call, and nothing of their parts.
impl Drop for Entities {
    fn drop(self) {
        let Entities {
            entities: _entities,
        } = self;
    }
}

impl Entities {
    ghost use Rattle.std.specs.Prelude.{◌≡◌, ◌≢◌, ◌↔◌, IsTrue, IfOk, OnOk, OnErr, [], length, map};
    ghost use Rattle.std.specs.List.Sorted.{IsStrictlySortedBy};
    ghost use Rattle.std.specs.Map.Iter.{ShowsInOrder, deref};
    ghost use Rattle.std.specs.Option.{option_copied};
    ghost use Rattle.cedar_ast.specs.Words.{PlainUid, entities_of, entity_at, entity_uid, uid_cmp, uid_of};

    /// No entities.
    pub fn new(alloc: Global) -> Self
        ensures { entities_of result ≡ [] }
    {
        Entities {
            entities: BTreeMap::new(alloc),
        }
    }

    /// Puts an entity in, and gives back the one of the same uid that it takes the place of. Out of
    /// memory is the only refusal, after which all entities are as before.
    pub fn insert(&mut self, entity: Entity) -> M<Option<Entity>>
        ensures replaced { IfOk result (λ replaced.
            replaced ≡ entity_at self.old (entity_uid entity)) }
        ensures inserted { OnOk result (entity_at self.new (entity_uid entity) ≡ Some entity) }
        ensures others { OnOk result ((uid : PlainUid) → uid ≢ entity_uid entity
            → entity_at self.new uid ≡ entity_at self.old uid) }
        ensures ordered { OnOk result
            (IsStrictlySortedBy uid_cmp (map entity_uid (entities_of self.new))) }
        ensures refused { OnErr result (entities_of self.new ≡ entities_of self.old) }
    {
        let uid = entity.uid().clone()?;
        Ok(self.entities.insert(uid, entity)?)
    }

    /// The entity of this uid, if there is one.
    pub fn get(&self, uid: &EntityUID) -> Option<&Entity>
        ensures { option_copied result ≡ entity_at self.now (uid_of uid.now) }
    {
        self.entities.get(uid)
    }

    /// How many entities there are.
    pub fn len(&self) -> usize
        ensures { result ≡ length (entities_of self.now) }
    {
        self.entities.len()
    }

    /// Whether there are no entities.
    pub fn is_empty(&self) -> bool
        ensures { IsTrue result ↔ (entities_of self.now ≡ []) }
    {
        self.entities.is_empty()
    }

    /// The entities, in uid order.
    pub fn iter(&self) -> Values<'_, EntityUID, Entity>
        ensures entities { result ≡ entities_of self.now }
        ensures ordered { IsStrictlySortedBy uid_cmp (map entity_uid (entities_of self.now)) }
        ensures runs { ShowsInOrder (deref {X = Entity}) }
    {
        self.entities.values()
    }
}
