//! Values that one type has and another hasn't, between versions of which the new one lacks a uid.

ghost use Rattle.std.specs.Prelude.{◌≡◌};
ghost use Rattle.cedar_ast.specs.EntityUID.{uid_of};

use crate::types::divergence::steps_text;
use crate::types::separate::{Known, what_is_known};
use crate::types::test_values::made;
use cedar_ast::{EntityType, EntityUID, M};
use cedar_counterexample::{
    RecordShape, Scope, Step, attributes_outside_between, existing_attributes, existing_value,
    outside_between,
};
use cedar_types::Type;
use checked::names::uid;
use checked::{holds, same};
use std::alloc::Global;
use std::fmt::Write;
use std::test::Fail;

/// Two versions: in the old one every uid exists, and in the new one all but one.
#[derive(Drop)]
struct Without {
    uid: EntityUID,
}

impl Scope for Without {
    ghost use Rattle.std.specs.Prelude.{[], refl};
    ghost use Rattle.std.proofs.lemmas.Str.{IsUtf8-nil};

    ghost ExistsInOld = { λ it uid. Unit {0} };

    ghost ExistsInNew = { λ it uid. ¬ (uid ≡ uid_of it.uid) };

    ghost types_have_uids = { λ it name named plain.
        (record { ty = name; eid = [] }, refl, (named, IsUtf8-nil), tt) };

    fn existing(&self, uid: &EntityUID) -> M<Option<EntityUID>> {
        Ok(Some(uid.clone()?))
    }

    fn lost_of(&self, ty: &EntityType) -> Option<&EntityUID> {
        if self.uid.entity_type() == ty {
            Some(&self.uid)
        } else {
            None
        }
    }

    fn lost(&self) -> Option<&EntityUID> {
        Some(&self.uid)
    }
}

/// What is reported of steps and of a uid: where the types part, or where the lost uid is named.
fn why_text(alloc: Global, steps: &[Step], lost: &Option<EntityUID>) -> Result<String, Fail> {
    let mut shown = steps_text(alloc, steps)?;
    if let Some(uid) = lost {
        write!(shown, " by {uid}")?;
    }
    Ok(shown)
}

/// What is reported of two types, the first of the old version and the second of the new.
fn between(
    alloc: Global,
    known: &Known,
    scope: &Without,
    a: &Type,
    b: &Type,
) -> Result<String, Fail> {
    let (extensions, samples) = (&known.extensions, known.samples.as_slice());
    if !a.is_sampled(extensions, samples) {
        return Ok(String::from_str(alloc, "not sampled")?);
    }
    match outside_between(alloc, scope, a, b, extensions, samples)? {
        Some(found) => {
            holds(
                a.typecheck_value(&found.value, extensions).ok() == Some(true),
                "of the first",
            )?;
            why_text(alloc, &found.steps, &found.lost)
        }
        None => Ok(String::from_str(alloc, "kept")?),
    }
}

/// The types, the lost uid, and what is reported.
const TYPES: &[(&str, &str, &str, &str)] = &[
    ("Role", "Role", "Role::a", "parts at by Role::\"a\""),
    ("Role", "Role", "Team::a", "kept"),
    (
        "Role|Team",
        "any-entity",
        "Team::a",
        "parts at by Team::\"a\"",
    ),
    (
        "any-entity",
        "any-entity",
        "Team::a",
        "parts at by Team::\"a\"",
    ),
    (
        "set-Role",
        "any-set",
        "Role::a",
        "parts at * by Role::\"a\"",
    ),
    ("any-set", "any-set", "Role::a", "parts at by Role::\"a\""),
    (
        "any-record",
        "any-record",
        "Role::a",
        "parts at by Role::\"a\"",
    ),
    (
        "a-long-open",
        "any-record",
        "Role::a",
        "parts at by Role::\"a\"",
    ),
    ("a-long", "any-record", "Role::a", "kept"),
    ("ip", "ip", "Role::a", "kept"),
    ("Role", "Team", "Role::a", "parts at"),
    ("long", "string", "Role::a", "parts at"),
];

#[test]
fn uids_that_are_lost_are_named(rt: HostRuntime) -> Result<(), Fail> {
    let alloc = rt.alloc();
    let known = what_is_known(alloc)?;
    for (a, b, lost, expected) in TYPES {
        let scope = Without {
            uid: uid(alloc, lost)?,
        };
        let answer = between(alloc, &known, &scope, &made(alloc, a)?, &made(alloc, b)?)?;
        same(a, answer.as_str(), expected)?;
    }
    Ok(())
}

/// What is reported of the attributes of two record types, and whether their values are such.
fn attributes_between(
    alloc: Global,
    known: &Known,
    scope: &Without,
    a: &Type,
) -> Result<String, Fail> {
    let (extensions, samples) = (&known.extensions, known.samples.as_slice());
    let Type::Record {
        attrs,
        open_attributes,
    } = a
    else {
        return Ok(String::from_str(alloc, "no record type")?);
    };
    if !a.is_sampled(extensions, samples) {
        return Ok(String::from_str(alloc, "not sampled")?);
    }
    let shape = RecordShape {
        attributes: attrs,
        openness: *open_attributes,
    };
    match attributes_outside_between(alloc, scope, shape, shape, extensions, samples)? {
        Some(found) => {
            let mut shown = why_text(alloc, &found.steps, &found.lost)?;
            for name in found.attributes.keys() {
                write!(shown, " {name}")?;
            }
            Ok(shown)
        }
        None => Ok(String::from_str(alloc, "kept")?),
    }
}

/// How many values a sample of a record's attributes has, and whether the sample of its type is of
/// it.
fn existing(alloc: Global, known: &Known, scope: &Without, ty: &Type) -> Result<String, Fail> {
    let (extensions, samples) = (&known.extensions, known.samples.as_slice());
    if !ty.is_sampled(extensions, samples) {
        return Ok(String::from_str(alloc, "not sampled")?);
    }
    let value = existing_value(alloc, scope, ty, extensions, samples)?;
    holds(
        ty.typecheck_value(&value, extensions).ok() == Some(true),
        "of the type",
    )?;
    let Type::Record { attrs, .. } = ty else {
        return Ok(String::from_str(alloc, "a value")?);
    };
    let values = existing_attributes(alloc, scope, attrs, extensions, samples)?;
    Ok(format!(in alloc; "{} values", values.len())?)
}

/// The record types, the lost uid, and what is reported of their attributes and of samples.
const RECORDS: &[(&str, &str, &str, &str)] = &[
    (
        "roles",
        "Role::a",
        "parts at role.* by Role::\"a\" name role",
        "2 values",
    ),
    ("roles", "Team::a", "kept", "2 values"),
    (
        "any-record",
        "Team::a",
        "parts at by Team::\"a\" _",
        "0 values",
    ),
    ("Role", "Role::a", "no record type", "a value"),
];

#[test]
fn attributes_that_lose_a_uid_are_named(rt: HostRuntime) -> Result<(), Fail> {
    let alloc = rt.alloc();
    let known = what_is_known(alloc)?;
    for (word, lost, parted, sampled) in RECORDS {
        let scope = Without {
            uid: uid(alloc, lost)?,
        };
        let ty = made(alloc, word)?;
        same(
            word,
            attributes_between(alloc, &known, &scope, &ty)?.as_str(),
            parted,
        )?;
        same(
            word,
            existing(alloc, &known, &scope, &ty)?.as_str(),
            sampled,
        )?;
    }
    Ok(())
}
