//! The leaves of types, one after another: what is neither a record nor a set of elements of a
//! type.

ghost use Rattle.std.specs.Prelude.{◌≡◌, ◌++◌, IfOk, map};
ghost use Rattle.std.specs.Bool.{MatchBool};
ghost use Rattle.std.specs.Iterator.{at_most};
ghost use Rattle.std.specs.List.Sorted.{IsPermutation};
ghost use Rattle.cedar_queries.specs.Words.{GivesLeaf, IsLeaf, context_types, entity_type_types, field_types, fields_of, inner_types, leaves_of, part_count, pending_types, plain_action_entry, plain_entry, schema_leaves, shown_types, ty_of};

use cedar_ast::{EntityType, EntityUID, M};
use cedar_schema_elements::{ValidatorActionId, ValidatorEntityType};
use cedar_table::Table;
use cedar_types::{Attributes, Type};
use std::alloc::Global;
use std::iter::FusedIterator;

/// The entity types of a schema, each under its name.
type EntityTypes = Table<EntityType, ValidatorEntityType>;

/// The actions of a schema, each under its uid.
type Actions = Table<EntityUID, ValidatorActionId>;

/// The leaves of types that are yet to be gone over, in no order that is promised.
///
/// An item is that memory ran out where a growth was refused on the way; after it the iterator has
/// ended.
#[derive(Drop)]
pub struct TypeIterator<'a> {
    pending: Vec<&'a Type>,
}

/// Adds the types of some attributes.
fn add_attributes<'a>(pending: &mut Vec<&'a Type>, attributes: &'a Attributes) -> M<()>
    ensures { IfOk result (λ _. shown_types pending.new.items
        ≡ shown_types pending.old.items ++ field_types (fields_of attributes.now)) }
{
    for (_, attribute) in attributes.iter() {
        pending.push(&attribute.attr_type)?;
    }
    Ok(())
}

/// Adds the types right inside a type, and tells whether it isn't a leaf.
fn add_inner<'a>(pending: &mut Vec<&'a Type>, ty: &'a Type) -> M<bool>
    ensures { IfOk result (λ has_parts. MatchBool has_parts
        (¬ IsLeaf (ty_of ty.now) × (shown_types pending.new.items
        ≡ shown_types pending.old.items ++ inner_types (ty_of ty.now)))
        (IsLeaf (ty_of ty.now) × (shown_types pending.new.items ≡ shown_types pending.old.items))) }
{
    match ty {
        Type::Set {
            element_type: Some(element),
        } => {
            pending.push(element)?;
            Ok(true)
        }
        Type::Record { attrs, .. } => {
            add_attributes(pending, attrs)?;
            Ok(true)
        }
        _ => Ok(false),
    }
}

impl<'a> Iterator for TypeIterator<'a> {
    type Item = M<&'a Type>;

    ghost next_gives = { λ s r t. GivesLeaf (pending_types s) r (pending_types t) };

    ghost remaining = { λ s. at_most (part_count (pending_types s)) };

    fn next(&mut self) -> Option<M<&'a Type>> {
        while let Some(ty) = self.pending.pop() {
            match add_inner(&mut self.pending, ty) {
                Ok(true) => {}
                Ok(false) => return Some(Ok(ty)),
                Err(refused) => {
                    self.pending.clear();
                    return Some(Err(refused));
                }
            }
        }
        None
    }
}

impl<'a> FusedIterator for TypeIterator<'a> {}

/// Adds the types of attributes and tags of entity types.
fn add_entity_types<'a>(pending: &mut Vec<&'a Type>, types: &'a EntityTypes) -> M<()>
    ensures { IfOk result (λ _. shown_types pending.new.items
        ≡ shown_types pending.old.items ++ entity_type_types (map plain_entry types.now.entries)) }
{
    for ty in types.values() {
        add_attributes(pending, ty.attributes())?;
        if let Some(tags) = ty.tag_type() {
            pending.push(tags)?;
        }
    }
    Ok(())
}

/// Adds the types of the contexts of actions.
fn add_contexts<'a>(pending: &mut Vec<&'a Type>, actions: &'a Actions) -> M<()>
    ensures { IfOk result (λ _. shown_types pending.new.items
        ≡ shown_types pending.old.items
        ++ context_types (map plain_action_entry actions.now.entries)) }
{
    for action in actions.values() {
        if let Some(context) = action.context() {
            pending.push(context)?;
        }
    }
    Ok(())
}

/// The leaves of the types of attributes, tags and contexts, each as often as it stands there.
/// Out of memory is the only refusal.
pub fn leaf_types<'a>(
    alloc: Global,
    types: &'a EntityTypes,
    actions: &'a Actions,
) -> M<TypeIterator<'a>>
    ensures { IfOk result (λ it. IsPermutation
        (schema_leaves (map plain_entry types.now.entries)
        (map plain_action_entry actions.now.entries)) (leaves_of (pending_types it))) }
{
    let mut pending = Vec::new(alloc);
    add_entity_types(&mut pending, types)?;
    add_contexts(&mut pending, actions)?;
    Ok(TypeIterator { pending })
}
