//! What a new version keeps of an entity type.

ghost use Rattle.std.specs.Prelude.{◌≡◌, ◌↔◌, ◌∷◌, [], Contains, IfOk, IsTrue, length, map};
ghost use Rattle.std.specs.Option.{option_map};
ghost use Rattle.cedar_compare.specs.Words.{ActionEntity, AreKept, AreAncestorsLost, AreVersions, IsAnswer, IsBelowAnswer, IsBesideAnswer, IsChoiceAnswer, IsChoiceOf, IsEntityIn, IsFreshEntity, IsSampleOf, IsStandard, IsTagOutside, IsTypeCause, IsAncestorCause, MayStandAbove, SchemaEntityType, bare_entity, between_of, choice_texts, eid_text, entity_type_of, enumerated_kind, fields_of, kind_fields, kind_openness, kind_tags, named_values, new_of, no_entry, old_of, one_tag, plain_action_entity, plain_cause, plain_difference, plain_type, type_name, type_subject, uid_of, value_tree};

use crate::ancestors::Ancestors;
use crate::bare::{is_bare_of_type, is_without_ancestors};
use crate::choices::{choice_set, choices_of, is_among};
use crate::difference::{Cause, Difference, Part, part_cause};
use crate::fresh::fresh_uid;
use crate::looking_up::{find_type, is_enumerated_at, lists_type};
use crate::versions::Versions;
use cedar_ast::{Eid, Entity, EntityType, EntityUID, M, NonEmpty, Value};
use cedar_counterexample::{
    AttributesOutsideBetween, OutsideBetween, RecordShape, attributes_outside_between,
    existing_attributes, existing_value, outside_between,
};
use cedar_schema::{ValidatorEntityType, ValidatorEntityTypeKind};
use std::collections::{BTreeMap, BTreeSet};

/// The values of attributes or of tags, by name.
type Values = BTreeMap<String, Value>;

/// An entity of a type with a uid that the new version doesn't name, without tags and ancestors.
fn entity_with(versions: &Versions<'_>, name: &EntityType, attributes: Values) -> M<Entity>
    requires { AreVersions versions.now }
    ensures { IfOk result (λ entity. IsFreshEntity (new_of versions.now) (type_name name.now)
        (named_values attributes) no_entry [] (plain_action_entity entity)) }
{
    let uid = fresh_uid(versions.alloc, versions.new, name, 0)?;
    let tags = BTreeMap::new(versions.alloc);
    Ok(Entity::new(uid, attributes, tags, BTreeSet::new(versions.alloc)))
}

/// The attributes of an entity of a standard type of the old version, no more than it requires,
/// which name what exists there.
fn some_attributes(
    versions: &Versions<'_>,
    name: &EntityType,
    old: &ValidatorEntityType,
) -> M<Values>
    requires versions { AreVersions versions.now }
    requires old { Contains (old_of versions.now).entity_types
        (type_name name.now, plain_type old.now) }
    requires standard { IsStandard (entity_type_of old.now).kind }
    ensures { IfOk result (λ values. IsSampleOf versions.now.extensions.now (old_of versions.now)
        (kind_fields (entity_type_of old.now).kind) (kind_openness (entity_type_of old.now).kind)
        (named_values values)) }
{
    existing_attributes(
        versions.alloc,
        versions,
        old.attributes(),
        versions.extensions,
        versions.samples,
    )
}

/// An entity of a type with a uid that the new version doesn't name, with one tag.
fn entity_tagged(
    versions: &Versions<'_>,
    name: &EntityType,
    attributes: Values,
    tag: Value,
) -> M<Entity>
    requires { AreVersions versions.now }
    ensures { IfOk result (λ entity. IsFreshEntity (new_of versions.now) (type_name name.now)
        (named_values attributes) (one_tag (value_tree tag)) [] (plain_action_entity entity)) }
{
    let mut tags = BTreeMap::new(versions.alloc);
    let _none = tags.insert(String::new(versions.alloc), tag)?;
    let uid = fresh_uid(versions.alloc, versions.new, name, 0)?;
    Ok(Entity::new(uid, attributes, tags, BTreeSet::new(versions.alloc)))
}

/// A length that the ids of a type have to exceed to be apart from a uid, if it is of that type.
fn length_apart(name: &EntityType, uid: &EntityUID) -> usize
    ensures { (uid_of uid.now).ty ≡ type_name name.now → result ≡ length (uid_of uid.now).eid }
{
    if uid.entity_type() == name {
        uid.eid().as_str().len()
    } else {
        0
    }
}

/// An entity of a type with a uid that the new version doesn't name, with one ancestor, which is
/// another entity.
fn entity_below(
    versions: &Versions<'_>,
    name: &EntityType,
    attributes: Values,
    upper: &EntityUID,
) -> M<Entity>
    requires { AreVersions versions.now }
    ensures { IfOk result (λ entity. IsFreshEntity (new_of versions.now) (type_name name.now)
        (named_values attributes) no_entry (uid_of upper.now ∷ [])
        (plain_action_entity entity)) }
{
    let mut ancestors = BTreeSet::new(versions.alloc);
    let _new = ancestors.insert(upper.clone()?)?;
    let uid = fresh_uid(
        versions.alloc,
        versions.new,
        name,
        length_apart(name, upper),
    )?;
    let tags = BTreeMap::new(versions.alloc);
    Ok(Entity::new(uid, attributes, tags, ancestors))
}

/// The difference of a standard entity type that the new version lacks, or has of another sort.
fn removed(versions: &Versions<'_>, name: &EntityType, old: &ValidatorEntityType) -> M<Difference>
    requires versions { AreVersions versions.now }
    requires old { Contains (old_of versions.now).entity_types
        (type_name name.now, plain_type old.now) }
    requires standard { IsStandard (entity_type_of old.now).kind }
    requires lacking { (other : SchemaEntityType)
        → Contains (new_of versions.now).entity_types (type_name name.now, other)
        → ¬ IsStandard other.kind }
    ensures { IfOk result (λ difference. IsAnswer versions.now.extensions.now (old_of versions.now)
        (new_of versions.now) (type_subject (type_name name.now))
        (Some (plain_difference difference))) }
{
    let attributes = some_attributes(versions, name, old)?;
    Ok(Difference::EntityType {
        witness: entity_with(versions, name, attributes)?,
        cause: Cause::Gone,
    })
}

/// A value of the tags of an entity type that those of another can't have, if there is one.
fn tag_outside(
    versions: &Versions<'_>,
    name: &EntityType,
    old: &ValidatorEntityType,
    new: &ValidatorEntityType,
) -> M<Option<OutsideBetween>>
    requires versions { AreVersions versions.now }
    requires old { Contains (old_of versions.now).entity_types
        (type_name name.now, plain_type old.now) }
    ensures { IfOk result (λ found. IsTagOutside versions.now.extensions.now (old_of versions.now)
        (new_of versions.now) (kind_tags (entity_type_of old.now).kind)
        (kind_tags (entity_type_of new.now).kind) (option_map between_of found)) }
{
    let Some(ty) = old.tag_type() else {
        return Ok(None);
    };
    match new.tag_type() {
        Some(other) => outside_between(
            versions.alloc,
            versions,
            ty,
            other,
            versions.extensions,
            versions.samples,
        ),
        None => Ok(Some(OutsideBetween {
            value: existing_value(
                versions.alloc,
                versions,
                ty,
                versions.extensions,
                versions.samples,
            )?,
            steps: Vec::new(versions.alloc),
            lost: None,
        })),
    }
}

/// Why a uid may no longer stand above the entities of a type.
fn upper_cause(versions: &Versions<'_>, name: &EntityType, upper: &EntityUID) -> M<Cause>
    requires versions { AreVersions versions.now }
    requires old { MayStandAbove (old_of versions.now) (type_name name.now) (uid_of upper.now) }
    requires new { ¬ MayStandAbove (new_of versions.now) (type_name name.now) (uid_of upper.now) }
    ensures { IfOk result (λ cause. IsAncestorCause versions.now.extensions.now (old_of
        versions.now)
        (new_of versions.now) (type_name name.now) (uid_of upper.now) (plain_cause cause)) }
{
    if lists_type(versions.new, name, upper.entity_type()) {
        return Ok(Cause::Choice(upper.clone()?));
    }
    Ok(Cause::AncestorType(upper.entity_type().clone()?))
}

/// What is lost of an entity type that is standard in both versions because of what stands above.
fn lost_below(
    versions: &Versions<'_>,
    ancestors: &Ancestors,
    name: &EntityType,
    old: &ValidatorEntityType,
) -> M<Option<Difference>>
    requires versions { AreVersions versions.now }
    requires ancestors { AreAncestorsLost (old_of versions.now) (new_of versions.now)
        ancestors.now }
    requires old { Contains (old_of versions.now).entity_types
        (type_name name.now, plain_type old.now) }
    requires standard { IsStandard (entity_type_of old.now).kind }
    ensures { IfOk result (λ found. IsBelowAnswer versions.now.extensions.now
        (old_of versions.now) (new_of versions.now) (type_name name.now)
        (option_map plain_difference found)) }
{
    let Some(upper) = ancestors.get(name) else {
        return Ok(None);
    };
    let attributes = some_attributes(versions, name, old)?;
    let witness = entity_below(versions, name, attributes, upper)?;
    let cause = upper_cause(versions, name, upper)?;
    Ok(Some(Difference::EntityType { witness, cause }))
}

/// What is lost of an entity type that is standard in both versions beside its attributes.
fn lost_beside(
    versions: &Versions<'_>,
    ancestors: &Ancestors,
    name: &EntityType,
    old: &ValidatorEntityType,
    new: &ValidatorEntityType,
) -> M<Option<Difference>>
    requires versions { AreVersions versions.now }
    requires ancestors { AreAncestorsLost (old_of versions.now) (new_of versions.now)
        ancestors.now }
    requires old { Contains (old_of versions.now).entity_types
        (type_name name.now, plain_type old.now) }
    requires new { Contains (new_of versions.now).entity_types
        (type_name name.now, plain_type new.now) }
    requires standard { IsStandard (entity_type_of old.now).kind }
    requires new_standard { IsStandard (entity_type_of new.now).kind }
    ensures { IfOk result (λ found. IsBesideAnswer versions.now.extensions.now
        (old_of versions.now) (new_of versions.now) (type_name name.now)
        (kind_tags (entity_type_of old.now).kind) (kind_tags (entity_type_of new.now).kind)
        (option_map plain_difference found)) }
{
    if let Some(found) = tag_outside(versions, name, old, new)? {
        let OutsideBetween { value, steps, lost } = found;
        let attributes = some_attributes(versions, name, old)?;
        let witness = entity_tagged(versions, name, attributes, value)?;
        let cause = part_cause(Part::Tags, steps, lost);
        return Ok(Some(Difference::EntityType { witness, cause }));
    }
    lost_below(versions, ancestors, name, old)
}

/// Whether an entity type is standard.
fn is_standard(ty: &ValidatorEntityType) -> bool
    ensures { IsTrue result ↔ IsStandard (entity_type_of ty.now).kind }
{
    match &ty.kind {
        ValidatorEntityTypeKind::Standard(_) => true,
        ValidatorEntityTypeKind::Enum(_) => false,
        ValidatorEntityTypeKind::External => false,
    }
}

/// The shape of the entities of a type.
fn shape(ty: &ValidatorEntityType) -> RecordShape<'_>
    ensures attributes { fields_of result.attributes.now
        ≡ kind_fields (entity_type_of ty.now).kind }
    ensures openness { result.openness ≡ kind_openness (entity_type_of ty.now).kind }
{
    RecordShape {
        attributes: ty.attributes(),
        openness: ty.open_attributes(),
    }
}

/// What is lost of a standard entity type.
fn lost_standard(
    versions: &Versions<'_>,
    ancestors: &Ancestors,
    name: &EntityType,
    old: &ValidatorEntityType,
) -> M<Option<Difference>>
    requires versions { AreVersions versions.now }
    requires ancestors { AreAncestorsLost (old_of versions.now) (new_of versions.now)
        ancestors.now }
    requires old { Contains (old_of versions.now).entity_types
        (type_name name.now, plain_type old.now) }
    requires standard { IsStandard (entity_type_of old.now).kind }
    ensures { IfOk result (λ found. IsAnswer versions.now.extensions.now (old_of versions.now)
        (new_of versions.now) (type_subject (type_name name.now))
        (option_map plain_difference found)) }
{
    let Some(new) = find_type(versions.new, name) else {
        return Ok(Some(removed(versions, name, old)?));
    };
    if !is_standard(new) {
        return Ok(Some(removed(versions, name, old)?));
    }
    let found = attributes_outside_between(
        versions.alloc,
        versions,
        shape(old),
        shape(new),
        versions.extensions,
        versions.samples,
    )?;
    if let Some(outside) = found {
        let AttributesOutsideBetween {
            attributes,
            steps,
            lost,
        } = outside;
        let witness = entity_with(versions, name, attributes)?;
        let cause = part_cause(Part::Attributes, steps, lost);
        return Ok(Some(Difference::EntityType { witness, cause }));
    }
    lost_beside(versions, ancestors, name, old, new)
}

/// The entity of a uid alone.
fn entity_alone(versions: &Versions<'_>, name: &EntityType, eid: &Eid) -> M<Entity>
    ensures { IfOk result (λ entity. plain_action_entity entity
        ≡ bare_entity (type_name name.now) (eid_text eid.now)) }
{
    let uid = EntityUID::new(name.clone()?, eid.clone()?, None);
    let attributes = BTreeMap::new(versions.alloc);
    let tags = BTreeMap::new(versions.alloc);
    Ok(Entity::new(uid, attributes, tags, BTreeSet::new(versions.alloc)))
}

/// Whether an entity without attributes, tags and ancestors is one of the new version.
fn is_kept(versions: &Versions<'_>, entity: &Entity) -> bool
    requires versions { AreVersions versions.now }
    requires bare { plain_action_entity entity.now ≡ bare_entity
        (plain_action_entity entity.now).uid.ty (plain_action_entity entity.now).uid.eid }
    ensures { IsTrue result ↔ IsEntityIn versions.now.extensions.now (new_of versions.now)
        (plain_action_entity entity.now) }
{
    if is_bare_of_type(versions.new, entity) {
        return true;
    }
    match versions.new_actions.get(entity.uid()) {
        Some(action) => is_without_ancestors(action),
        None => false,
    }
}

/// Why a choice is lost.
fn choice_cause(versions: &Versions<'_>, uid: &EntityUID) -> M<Cause>
    requires versions { AreVersions versions.now }
    requires old { IsChoiceOf (old_of versions.now) (uid_of uid.now) }
    requires lost { ¬ IsEntityIn versions.now.extensions.now (new_of versions.now)
        (bare_entity (uid_of uid.now).ty (uid_of uid.now).eid) }
    ensures { IfOk result (λ cause. (it : ActionEntity) → it.uid ≡ uid_of uid.now
        → IsTypeCause versions.now.extensions.now (old_of versions.now) (new_of versions.now) it
        (plain_cause cause)) }
{
    if is_enumerated_at(versions.new, uid.entity_type()) {
        return Ok(Cause::Choice(uid.clone()?));
    }
    Ok(Cause::Gone)
}

/// The choices that an entity type of the new version has, and none where it isn't enumerated.
fn kept_choices(versions: &Versions<'_>, name: &EntityType) -> M<BTreeSet<Eid>>
    requires { AreVersions versions.now }
    ensures { IfOk result (λ kept. AreKept versions.now.extensions.now (new_of versions.now)
        (type_name name.now) (map eid_text kept.keys)) }
{
    let Some(new) = find_type(versions.new, name) else {
        return Ok(BTreeSet::new(versions.alloc));
    };
    match choices_of(&new.kind) {
        Some(choices) => choice_set(versions.alloc, choices),
        None => Ok(BTreeSet::new(versions.alloc)),
    }
}

/// What is lost of one choice of an enumerated entity type, where these are kept in any case.
fn lost_choice(
    versions: &Versions<'_>,
    kept: &BTreeSet<Eid>,
    name: &EntityType,
    eid: &Eid,
) -> M<Option<Difference>>
    requires versions { AreVersions versions.now }
    requires kept { AreKept versions.now.extensions.now (new_of versions.now)
        (type_name name.now) (map eid_text kept.now.keys) }
    requires old { IsChoiceOf (old_of versions.now)
        (record { ty = type_name name.now; eid = eid_text eid.now }) }
    ensures { IfOk result (λ found. IsChoiceAnswer versions.now.extensions.now
        (old_of versions.now) (new_of versions.now) (type_name name.now) (eid_text eid.now)
        (option_map plain_difference found)) }
{
    if is_among(kept, eid) {
        return Ok(None);
    }
    let witness = entity_alone(versions, name, eid)?;
    if is_kept(versions, &witness) {
        return Ok(None);
    }
    let cause = choice_cause(versions, witness.uid())?;
    Ok(Some(Difference::EntityType { witness, cause }))
}

/// What is lost of an enumerated entity type.
fn lost_enumerated(
    versions: &Versions<'_>,
    name: &EntityType,
    choices: &NonEmpty<Eid>,
) -> M<Option<Difference>>
    requires versions { AreVersions versions.now }
    requires old { (it : SchemaEntityType) × Contains (old_of versions.now).entity_types
        (type_name name.now, it) × (it.kind ≡ enumerated_kind (choice_texts choices.now)) }
    ensures { IfOk result (λ found. IsAnswer versions.now.extensions.now (old_of versions.now)
        (new_of versions.now) (type_subject (type_name name.now))
        (option_map plain_difference found)) }
{
    let kept = kept_choices(versions, name)?;
    if let Some(difference) = lost_choice(versions, &kept, name, &choices.head)? {
        return Ok(Some(difference));
    }
    for eid in &choices.tail {
        if let Some(difference) = lost_choice(versions, &kept, name, eid)? {
            return Ok(Some(difference));
        }
    }
    Ok(None)
}

/// What is lost of an entity type, if something is.
pub(crate) fn lost_of_type(
    versions: &Versions<'_>,
    ancestors: &Ancestors,
    name: &EntityType,
) -> M<Option<Difference>>
    requires versions { AreVersions versions.now }
    requires ancestors { AreAncestorsLost (old_of versions.now) (new_of versions.now)
        ancestors.now }
    ensures { IfOk result (λ found. IsAnswer versions.now.extensions.now (old_of versions.now)
        (new_of versions.now) (type_subject (type_name name.now))
        (option_map plain_difference found)) }
{
    let Some(old) = find_type(versions.old, name) else {
        return Ok(None);
    };
    match &old.kind {
        ValidatorEntityTypeKind::Standard(_) => lost_standard(versions, ancestors, name, old),
        ValidatorEntityTypeKind::Enum(choices) => lost_enumerated(versions, name, choices),
        ValidatorEntityTypeKind::External => Ok(None),
    }
}
