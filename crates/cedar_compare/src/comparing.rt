//! Two versions of a schema, compared.

ghost use Rattle.std.specs.Prelude.{◌≡◌, ◌↔◌, [], IfErr, IfOk, IfSome, IsTrue, None, OnOk, map, string_bytes};
ghost use Rattle.cedar_compare.specs.Words.{AreActionEntities, AreLosses, IsComparable, IsCompareFault, IsLeafSampled, IsSampled, IsSchemaSampled, IsUnsampledType, IsVersionFault, Keeps, action_entries, entities_of, plain_action_entity, plain_difference, schema_of, schema_with, ty_of, value_trees};

use crate::compare_fault::{CompareFault, Version};
use crate::difference::Difference;
use crate::existing::has_uids;
use crate::losses::losses;
use crate::lost_uids::lost_uids;
use crate::versions::Versions;
use cedar_ast::{Entities, Extensions, M, Value};
use cedar_schema::ValidatorSchema;
use cedar_types::Type;
use std::alloc::Global;

/// What two versions of a schema admit apart from each other.
#[derive(Debug, Drop)]
pub struct Comparison {
    /// What the old version admits and the new doesn't: entity types in the order of their names,
    /// actions in the order of their uids, and environments in the order of their actions, their
    /// principals and their resources.
    pub lost: Vec<Difference>,
    /// What the new version admits and the old doesn't, in the same order.
    pub gained: Vec<Difference>,
}

/// Whether a leaf of a type is sampled: it is inhabited by the samples, and names no type of actions
/// of which there is none.
fn is_leaf_sampled(
    schema: &ValidatorSchema,
    ty: &Type,
    extensions: &Extensions,
    samples: &[Value],
) -> bool
    ensures yes { IsTrue result → IsLeafSampled extensions.now (value_trees samples.now)
        (schema_of schema.now) (ty_of ty.now) }
    ensures no { IsSampled extensions.now (value_trees samples.now) (schema_of schema.now)
        (ty_of ty.now) → IsTrue result }
{
    ty.is_sampled(extensions, samples) && has_uids(schema, ty)
}

/// A type in a schema of which there is no sample, or which names a type of actions of which there
/// is none, as it is printed, if there is one.
fn unsampled(
    alloc: Global,
    schema: &ValidatorSchema,
    extensions: &Extensions,
    samples: &[Value],
) -> M<Option<String>>
    ensures none { IfOk result (λ found. (found ≡ None)
        → IsSchemaSampled extensions.now (value_trees samples.now) (schema_of schema.now)) }
    ensures some { IfOk result (λ found. IfSome found (λ text. IsUnsampledType extensions.now
        (value_trees samples.now) (schema_of schema.now) (string_bytes text))) }
{
    for ty in schema.leaf_types(alloc)? {
        let ty = ty?;
        if !is_leaf_sampled(schema, ty, extensions, samples) {
            return Ok(Some(ty.to_string(alloc)?));
        }
    }
    Ok(None)
}

/// That a version can be compared.
fn check(
    alloc: Global,
    version: Version,
    schema: &ValidatorSchema,
    extensions: &Extensions,
    samples: &[Value],
) -> Result<(), CompareFault>
    ensures comparable { OnOk result (IsComparable extensions.now (value_trees samples.now)
        (schema_of schema.now)) }
    ensures fault { IfErr result (IsVersionFault extensions.now (value_trees samples.now) version
        (schema_of schema.now)) }
{
    if !schema.is_complete() {
        return Err(CompareFault::Incomplete(version));
    }
    match unsampled(alloc, schema, extensions, samples)? {
        Some(ty) => Err(CompareFault::Unsampled(version, ty)),
        None => Ok(()),
    }
}

/// A version of a schema, with the entities of its actions.
#[derive(Clone, Copy, Drop)]
struct Side<'a> {
    schema: &'a ValidatorSchema,
    actions: &'a Entities,
}

/// What the new of two versions takes away.
fn lost<'a>(
    alloc: Global,
    old: Side<'a>,
    new: Side<'a>,
    extensions: &'a Extensions,
    samples: &'a [Value],
) -> M<Vec<Difference>>
    requires old { IsComparable extensions.now (value_trees samples.now)
        (schema_of old.schema.now) }
    requires old_actions { AreActionEntities (schema_with (schema_of old.schema.now).entity_types
        (action_entries old.schema.now)
        (map plain_action_entity (entities_of old.actions.now))) }
    requires new_actions { AreActionEntities (schema_with (schema_of new.schema.now).entity_types
        (action_entries new.schema.now)
        (map plain_action_entity (entities_of new.actions.now))) }
    ensures losses { IfOk result (λ lost. AreLosses extensions.now (schema_of old.entry.schema.now)
        (schema_of new.entry.schema.now) (map plain_difference lost.items)) }
    ensures kept { IfOk result (λ lost. (lost.items ≡ [])
        → Keeps extensions.now (schema_of old.entry.schema.now) (schema_of new.entry.schema.now)) }
{
    let versions = Versions {
        alloc,
        old: old.schema,
        new: new.schema,
        new_actions: new.actions,
        extensions,
        samples,
        lost: lost_uids(alloc, old.schema, new.schema)?,
    };
    losses(&versions, old.actions)
}

/// What a new version of a schema takes away and what it adds.
///
/// `lost` names each entity type, each action and each environment of which the old version admits
/// an entity or a request that the new one doesn't, once, each with such an entity or request as a
/// witness, and with why it is lost; `gained` is the same of the new version and the old one. So
/// nothing is lost exactly where every entity and every request of the old version is one of the
/// new. An entity is one of a schema where its attributes and tags have their types and name what
/// exists in the schema, and each of its ancestors is another entity and may stand there, as a
/// choice of an enumerated type does alone; a request where one of the schema's environments has
/// the types of its principal and resource and its action, and its context has the environment's
/// type and names what exists (the Cedar reference on schemas, RFC 53 and RFC 82). Of an enumerated
/// type its choices exist, of a type of actions the schema's actions, and of another type every
/// entity.
///
/// The samples are values of the extension types, one of each at least. The refusals are
/// `Incomplete` where one of the two schemas declares something to be elsewhere, `Unsampled` where
/// a type in one of them is `Never`, an extension type without a sample, or a type of actions
/// without an action, and `Memory`.
pub fn compare(
    alloc: Global,
    old: &ValidatorSchema,
    new: &ValidatorSchema,
    extensions: &Extensions,
    samples: &[Value],
) -> Result<Comparison, CompareFault>
    ensures old { OnOk result (IsComparable extensions.now (value_trees samples.now)
        (schema_of old.now)) }
    ensures new { OnOk result (IsComparable extensions.now (value_trees samples.now)
        (schema_of new.now)) }
    ensures fault { IfErr result (IsCompareFault extensions.now (value_trees samples.now)
        (schema_of old.now) (schema_of new.now)) }
    ensures lost { IfOk result (λ it. AreLosses extensions.now (schema_of old.now)
        (schema_of new.now) (map plain_difference it.lost.items)) }
    ensures gained { IfOk result (λ it. AreLosses extensions.now (schema_of new.now)
        (schema_of old.now) (map plain_difference it.gained.items)) }
    ensures kept { IfOk result (λ it. (it.lost.items ≡ [])
        ↔ Keeps extensions.now (schema_of old.now) (schema_of new.now)) }
{
    check(alloc, Version::Old, old, extensions, samples)?;
    check(alloc, Version::New, new, extensions, samples)?;
    let old_actions = old.action_entities(alloc, extensions)?;
    let new_actions = new.action_entities(alloc, extensions)?;
    let old = Side {
        schema: old,
        actions: &old_actions,
    };
    let new = Side {
        schema: new,
        actions: &new_actions,
    };
    Ok(Comparison {
        lost: lost(alloc, old, new, extensions, samples)?,
        gained: lost(alloc, new, old, extensions, samples)?,
    })
}
