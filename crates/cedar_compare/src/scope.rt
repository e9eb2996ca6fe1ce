//! Which uids exist in two versions of a schema.

ghost use Rattle.cedar_compare.specs.Words.{Exists, new_of, old_of};
ghost use Rattle.cedar_compare.specs.SchemaUids.{types_have_uids as schema_has_uids};

use crate::existing::some_existing;
use crate::versions::Versions;
use cedar_ast::{EntityType, EntityUID, M};
use cedar_counterexample::Scope;

impl Scope for Versions<'_> {
    ghost ExistsInOld = { λ it. Exists (old_of it) };

    ghost ExistsInNew = { λ it. Exists (new_of it) };

    ghost types_have_uids = { λ it. schema_has_uids it.old.now };

    fn existing(&self, uid: &EntityUID) -> M<Option<EntityUID>> {
        if self.old.entity_exists(uid) {
            return Ok(Some(uid.clone()?));
        }
        some_existing(self.alloc, self.old, uid.entity_type())
    }

    fn lost_of(&self, ty: &EntityType) -> Option<&EntityUID> {
        self.lost.get(ty)
    }

    fn lost(&self) -> Option<&EntityUID> {
        self.lost.values().next()
    }
}
