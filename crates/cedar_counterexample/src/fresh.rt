//! Names that stand nowhere in a type.

ghost use Rattle.std.specs.Prelude.{◌≡◌, ◌+◌, ◌<◌, ◌≤◌, IfOk, Contains, length, replicate, string_bytes};
ghost use Rattle.cedar_counterexample.specs.Words.{AreNoLonger, FieldsMentionEntity, IsActionType, MentionsEntity, PlainName, Text, field_names, fields_of, lub_names, ty_of, type_name};

use cedar_ast::{EntityType, Id, InternalName, M, Name};
use cedar_types::{Attributes, EntityKind, EntityLUB, Type};
use std::alloc::Global;

/// A text of one `_` more than a number says.
fn underscores(alloc: Global, count: usize) -> M<String>
    ensures { IfOk result (λ text. string_bytes text ≡ replicate (count + 1) 95) }
{
    let mut text = String::new(alloc);
    for _ in 0..count {
        text.push('_')?;
    }
    text.push('_')?;
    Ok(text)
}

/// The length of the longest name of an attribute, or 0 where there is none.
fn longest_name(attrs: &Attributes) -> usize
    ensures { (name : Text) → Contains (field_names (fields_of attrs.now)) name
        → length name ≤ result }
{
    let mut longest = 0;
    for name in attrs.keys() {
        longest = longest.max(name.len());
    }
    longest
}

/// The length of the longest base name of the entity types of a union.
fn longest_base(lub: &EntityLUB) -> usize
    ensures { (name : PlainName) → Contains (lub_names lub.now) name → length name.base ≤ result }
{
    let mut longest = 0;
    for ty in lub.iter() {
        longest = longest.max(ty.name().basename().as_str().len());
    }
    longest
}

/// The entity type of as many `_` and one more.
pub(crate) fn type_of_length(alloc: Global, count: usize) -> M<EntityType>
    ensures { IfOk result (λ ty. length (type_name ty).base ≡ count + 1) }
{
    let Some(id) = Id::new(underscores(alloc, count)?) else {
        unreachable!()
    };
    match Name::new(InternalName::new(id, Vec::new(alloc), None)) {
        Some(name) => Ok(EntityType::new(name)),
        None => unreachable!(),
    }
}

/// A name that no attribute has.
pub(crate) fn fresh_name(alloc: Global, attrs: &Attributes) -> M<String>
    ensures { IfOk result (λ name.
        ¬ Contains (field_names (fields_of attrs.now)) (string_bytes name)) }
{
    underscores(alloc, longest_name(attrs))
}

/// An entity type that isn't one of a union.
pub(crate) fn fresh_type(alloc: Global, lub: &EntityLUB) -> M<EntityType>
    ensures { IfOk result (λ ty. ¬ Contains (lub_names lub.now) (type_name ty)) }
{
    type_of_length(alloc, longest_base(lub))
}

/// The length of the longest base name of the entity types that the types of attributes mention.
#[cycle(longest)]
pub(crate) fn longest_in_attributes(attrs: &Attributes) -> usize
    ensures { AreNoLonger (FieldsMentionEntity (fields_of attrs.now)) result }
{
    let mut longest = 0;
    for (_, attribute) in attrs.iter() {
        longest = longest.max(longest_in(&attribute.attr_type));
    }
    longest
}

/// The length of the longest base name of the entity types that a type mentions.
#[cycle(longest)]
pub(crate) fn longest_in(ty: &Type) -> usize
    ensures { AreNoLonger (MentionsEntity (ty_of ty.now)) result }
{
    match ty {
        Type::Entity(EntityKind::Entity(lub)) => longest_base(lub),
        Type::Set {
            element_type: Some(element),
        } => longest_in(element),
        Type::Record { attrs, .. } => longest_in_attributes(attrs),
        _ => 0,
    }
}

/// An entity type with a base name that is longer than that, and that isn't one of actions.
pub(crate) fn longer_type(alloc: Global, longest: usize) -> M<EntityType>
    ensures longer { IfOk result (λ ty. longest < length (type_name ty).base) }
    ensures of_entities { IfOk result (λ ty. ¬ IsActionType (type_name ty)) }
{
    type_of_length(alloc, longest.max("Action".len()))
}
