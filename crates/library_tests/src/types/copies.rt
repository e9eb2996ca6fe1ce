//! Copies of types and their parts, and of entity types and actions of a schema.

use crate::types::actions::{look, view};
use crate::types::entity_types::{enumerated, external, standard};
use crate::types::test_values::{kind, made, text};
use cedar_ast::{Eid, EntityType, M};
use cedar_schema_elements::{
    StandardValidatorEntityType, ValidatorActionId, ValidatorApplySpec, ValidatorEntityType,
    ValidatorEntityTypeKind,
};
use cedar_types::{AttributeType, Attributes, BoolType, EntityKind, EntityLUB, Type};
use checked::holds;
use checked::names::entity_types;
use std::alloc::Global;
use std::collections::HashSet;
use std::test::Fail;

/// Whether a copy is made, and equal to the value that it is made of.
fn is_equal<T: PartialEq + Drop>(copy: M<T>, value: &T) -> bool {
    match copy {
        Ok(copy) => copy == *value,
        Err(_) => false,
    }
}

#[test]
fn copies_of_ids_and_truths_are_equal(rt: HostRuntime) -> Result<(), Fail> {
    let id = Eid(text(rt.alloc(), "red")?);
    holds(is_equal(id.clone(), &id), "an id")?;
    for known in &[BoolType::AnyBool, BoolType::True, BoolType::False] {
        holds(is_equal(BoolType::clone(known), known), "a truth value")?;
    }
    Ok(())
}

/// Whether the copy of the union of a kind of entities is equal, where it has one.
fn union_is_copied(union: Option<&EntityLUB>) -> bool {
    match union {
        Some(union) => is_equal(EntityLUB::clone(union), union),
        None => true,
    }
}

/// Whether the copies of a kind of entities, and of its union where it has one, are equal.
fn entities_are_copied(kind: &EntityKind) -> bool {
    is_equal(EntityKind::clone(kind), kind) && union_is_copied(kind.as_entity_lub())
}

#[test]
fn copies_of_kinds_of_entities_are_equal(rt: HostRuntime) -> Result<(), Fail> {
    let alloc = rt.alloc();
    let is_copied = entities_are_copied(&EntityKind::AnyEntity)
        && entities_are_copied(&kind(alloc, "Foo")?)
        && entities_are_copied(&kind(alloc, "Foo|Bar")?);
    holds(is_copied, "kinds of entities")
}

/// Whether the copies of attributes, and of the one of the name `b`, are equal.
fn attributes_are_copied(attributes: &Attributes) -> bool {
    match attributes.get_attr("b") {
        Some(attribute) => {
            is_equal(AttributeType::clone(attribute), attribute)
                && is_equal(Attributes::clone(attributes), attributes)
        }
        None => false,
    }
}

/// Whether the copies of a record type and of its attributes are equal.
fn record_is_copied(ty: &Type) -> bool {
    match ty {
        Type::Record { attrs, .. } => {
            attributes_are_copied(attrs) && is_equal(Type::clone(ty), ty)
        }
        _ => false,
    }
}

#[test]
fn copies_of_attributes_are_equal(rt: HostRuntime) -> Result<(), Fail> {
    holds(record_is_copied(&made(rt.alloc(), "mixed")?), "a and b")
}

/// Whether the copies of how an entity type is declared, and of what a standard one has, are equal.
fn declared_is_copied(kind: &ValidatorEntityTypeKind) -> bool {
    let is_copied = match kind {
        ValidatorEntityTypeKind::Standard(standard) => {
            is_equal(StandardValidatorEntityType::clone(standard), standard)
        }
        _ => true,
    };
    is_copied && is_equal(ValidatorEntityTypeKind::clone(kind), kind)
}

/// Whether the copies of an entity type and of its parts are equal, with its location.
fn entity_type_is_copied(ty: &ValidatorEntityType) -> bool {
    let is_located = match ty.clone() {
        Ok(copy) => copy == *ty && copy.loc == ty.loc,
        Err(_) => false,
    };
    is_located && declared_is_copied(&ty.kind)
}

/// Whether an entity type has tags just where it should, and a copy of it is equal to it.
fn is_copied_with(ty: Result<ValidatorEntityType, Fail>, has_tags: bool) -> Result<bool, Fail> {
    let ty = ty?;
    Ok(ty.tag_type().is_some() == has_tags && entity_type_is_copied(&ty))
}

#[test]
fn copies_of_entity_types_are_equal(rt: HostRuntime) -> Result<(), Fail> {
    let alloc = rt.alloc();
    holds(is_copied_with(standard(alloc), true)?, "a standard one")?;
    holds(
        is_copied_with(enumerated(alloc), false)?,
        "an enumerated one",
    )?;
    holds(is_copied_with(external(alloc), false)?, "an external one")
}

/// Whether two actions are equal, with their locations.
fn are_alike(first: &ValidatorActionId, second: &ValidatorActionId) -> bool {
    first == second && first.loc() == second.loc()
}

/// Whether a copy of an action is equal to it, with its location.
fn action_is_copied(action: &ValidatorActionId) -> bool {
    match action.clone() {
        Ok(copy) => are_alike(action, &copy),
        Err(_) => false,
    }
}

#[test]
fn copies_of_actions_are_equal(rt: HostRuntime) -> Result<(), Fail> {
    let alloc = rt.alloc();
    let (view, look) = (view(alloc)?, look(alloc)?);
    let counts = (view.principals().count(), look.principals().count());
    holds(counts == (2, 0) && action_is_copied(&view), "view")?;
    holds(action_is_copied(&look), "look")
}

/// Requests of users and admins for photos.
fn for_photos(alloc: Global) -> Result<ValidatorApplySpec<EntityType>, Fail> {
    let principals = HashSet::from_iter(alloc, entity_types(alloc, "User,Admin")?)?;
    let resources = HashSet::from_iter(alloc, entity_types(alloc, "Photo")?)?;
    Ok(ValidatorApplySpec::new(principals, resources))
}

#[test]
fn copies_of_requests_are_equal(rt: HostRuntime) -> Result<(), Fail> {
    let spec = for_photos(rt.alloc())?;
    holds(is_equal(spec.clone(), &spec), "a copy")
}
