//! What may stand above entities of a type in one version and not in the other.

ghost use Rattle.std.specs.Prelude.{◌↔◌, ◌∷◌, List, Contains, IfOk, IsTrue, OnOk};
ghost use Rattle.std.specs.Option.{option_copied, option_map};
ghost use Rattle.cedar_compare.specs.Words.{AreAncestorsLost, AreAncestorsSoFar, AreVersions, IsListedBy, IsAncestorKept, MayHave, PlainName, eid_text, kind_choices, new_of, old_of, plain_kind, plain_type, type_name};

use crate::choices::{choices_of, id_outside, some_id};
use crate::keeping::keep;
use crate::looking_up::find_type;
use crate::versions::Versions;
use cedar_ast::{Eid, EntityType, EntityUID, M};
use cedar_schema::{ValidatorEntityType, ValidatorEntityTypeKind};
use std::collections::BTreeMap;

/// For some entity types a uid each that may stand above their entities in the old version and not
/// in the new.
pub(crate) type Ancestors = BTreeMap<EntityType, EntityUID>;

/// What becomes of the uids of an entity type that may stand above others.
#[derive(Drop)]
struct Upper<'a> {
    /// One of its ids.
    eid: Eid,
    /// The entity type of the new version, if that may have all its ids; else it may not have that
    /// one.
    kept: Option<&'a ValidatorEntityType>,
}

/// What becomes of the uids of an entity type of the old version.
fn upper_of<'a>(
    versions: &Versions<'a>,
    name: &EntityType,
    kind: &ValidatorEntityTypeKind,
) -> M<Upper<'a>>
    requires { AreVersions versions.now }
    ensures may { IfOk result (λ upper.
        MayHave (kind_choices (plain_kind kind.now)) (eid_text upper.eid)) }
    ensures kept { IfOk result (λ upper. IsAncestorKept (new_of versions.now)
        (type_name name.now) (kind_choices (plain_kind kind.now)) (eid_text upper.eid)
        (option_map plain_type (option_copied upper.kept))) }
{
    let choices = choices_of(kind);
    let eid = some_id(versions.alloc, choices)?;
    let Some(new) = find_type(versions.new, name) else {
        return Ok(Upper { eid, kept: None });
    };
    match id_outside(versions.alloc, choices, choices_of(&new.kind))? {
        Some(eid) => Ok(Upper { eid, kept: None }),
        None => Ok(Upper {
            eid,
            kept: Some(new),
        }),
    }
}

/// Whether each of the uids still may stand above the entities of a type.
fn is_still_above(upper: &Upper<'_>, lower: &EntityType) -> bool
    ensures { IsTrue result ↔ IsListedBy (option_map plain_type (option_copied upper.now.kept))
        (type_name lower.now) }
{
    match upper.kept {
        Some(new) => new.has_descendant_entity_type(lower),
        None => false,
    }
}

/// Keeps a uid for each descendant of an entity type that it may no longer stand above, where none
/// is kept yet.
fn add_descendants(
    versions: &Versions<'_>,
    ancestors: &mut Ancestors,
    name: &EntityType,
    old: &ValidatorEntityType,
    upper: &Upper<'_>,
) -> M<()>
    requires versions { AreVersions versions.now }
    requires old { Contains (old_of versions.now).entity_types
        (type_name name.now, plain_type old.now) }
    requires may { MayHave (kind_choices (plain_type old.now).kind) (eid_text upper.now.eid) }
    requires kept { IsAncestorKept (new_of versions.now) (type_name name.now)
        (kind_choices (plain_type old.now).kind) (eid_text upper.now.eid)
        (option_map plain_type (option_copied upper.now.kept)) }
    ensures { OnOk result ((left : List PlainName)
        → AreAncestorsSoFar (old_of versions.now) (new_of versions.now)
        (λ lower uid. Contains (type_name name.now ∷ left) uid.ty) ancestors.old
        → AreAncestorsSoFar (old_of versions.now) (new_of versions.now)
        (λ lower uid. Contains left uid.ty) ancestors.new) }
{
    for lower in &old.descendants {
        if is_still_above(upper, lower) {
            continue;
        }
        if ancestors.contains_key(lower) {
            continue;
        }
        let uid = EntityUID::new(name.clone()?, upper.eid.clone()?, None);
        keep(ancestors, lower.clone()?, uid)?;
    }
    Ok(())
}

/// For each entity type whose entities lose a uid above them, such a uid.
pub(crate) fn lost_ancestors(versions: &Versions<'_>) -> M<Ancestors>
    requires { AreVersions versions.now }
    ensures { IfOk result (AreAncestorsLost (old_of versions.now) (new_of versions.now)) }
{
    let mut ancestors = BTreeMap::new(versions.alloc);
    for name in versions.old.entity_type_names() {
        if let Some(old) = find_type(versions.old, name) {
            let upper = upper_of(versions, name, &old.kind)?;
            add_descendants(versions, &mut ancestors, name, old, &upper)?;
        }
    }
    Ok(ancestors)
}
