//! Two versions of a schema.

ghost use Rattle.cedar_compare.specs.LostUids.{AreLostUids};
ghost use Rattle.cedar_schema.specs.ValidatorSchema.{schema_of};

use cedar_ast::{Entities, EntityType, EntityUID, Extensions, Value};
use cedar_schema::ValidatorSchema;
use std::alloc::Global;
use std::collections::BTreeMap;

/// Two versions of a schema, the entities of the actions of the new one, and what values are made
/// of.
#[derive(Drop)]
pub(crate) struct Versions<'a> {
    /// The allocator for what is found.
    pub(crate) alloc: Global,
    /// The old version.
    pub(crate) old: &'a ValidatorSchema,
    /// The new version.
    pub(crate) new: &'a ValidatorSchema,
    /// The entities of the actions of the new version.
    pub(crate) new_actions: &'a Entities,
    /// The extension types and functions.
    pub(crate) extensions: &'a Extensions,
    /// Values of the extension types.
    pub(crate) samples: &'a [Value],
    /// For each entity type that loses uids in the new version, one that does.
    pub(crate) lost: BTreeMap<EntityType, EntityUID>,
    ghost lost_ones: { ∥ AreLostUids (schema_of old.now) (schema_of new.now) lost ∥₁ },
}
