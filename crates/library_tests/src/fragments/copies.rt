//! Copies of fragments and of all that they hold.

use crate::fragments::shown::is_alike;
use cedar_ast::{EntityType, InternalName};
use cedar_fragments::namespace::{
    ActionDef, ActionFragment, ActionParent, ActionRequests, ActionsDef, CommonTypeDef,
    CommonTypeDefs, EntityTypeDef, EntityTypesDef, ValidatorNamespaceDef, ValidatorSchemaFragment,
};
use cedar_json::fragment_from_json;
use cedar_name_resolution::defs::AllDefs;
use cedar_schema_ast::json_schema::{
    ActionEntityUID, ActionType, ApplySpec, AttributesOrContext, CommonType, ConditionalName,
    EntityType as WrittenEntityType, EntityTypeKind, Fragment, NamespaceDefinition, RawName,
    StandardEntityType, copied_names,
};
use checked::{fragment_of, holds};
use std::alloc::Global;
use std::test::Fail;

/// Declarations of each kind with all of their parts.
pub(crate) const WRITTEN: &str = "namespace N {
  type C = Set<T>;
  type D = { x?: C };
  entity T;
  entity U in [T] { a: T, b?: Set<D> } tags C;
  entity E enum [\"red\", \"green\"];
  action all, none;
  action view in [all, N::Action::\"none\"] appliesTo {
    principal: [T, U],
    resource: T,
    context: { a: D },
  };
  external entity X in [T];
  external action far in [all];
}
entity Outside;";

/// Declarations over references that say their kind, and over an extension type.
pub(crate) const WRITTEN_BY_KIND: &str = r#"{"N": {
  "commonTypes": {
    "C": {"type": "Set", "element": {"type": "Entity", "name": "T"}},
    "D": {"type": "Record", "attributes": {"x": {"type": "C", "required": false}}}},
  "entityTypes": {
    "T": {},
    "U": {"memberOfTypes": ["T"], "tags": {"type": "Extension", "name": "ipaddr"},
      "shape": {"type": "Record", "attributes": {"a": {"type": "Entity", "name": "T"}}}}},
  "actions": {
    "view": {"appliesTo": {
      "principalTypes": ["U"], "resourceTypes": ["T"], "context": {"type": "D"}}}}}}"#;

/// Both texts.
pub(crate) const TEXTS: &[&str] = &[WRITTEN, WRITTEN_BY_KIND];

/// A fragment over conditional names.
pub(crate) type Conditional = ValidatorSchemaFragment<ConditionalName, ConditionalName>;

/// A fragment whose names are resolved.
pub(crate) type Resolved = ValidatorSchemaFragment<InternalName, EntityType>;

/// A definition over conditional names.
pub(crate) type Definition = ValidatorNamespaceDef<ConditionalName, ConditionalName>;

/// The fragment of a text, which is JSON where it begins with a brace.
pub(crate) fn written(alloc: Global, text: &str) -> Result<Fragment<RawName>, Fail> {
    if text.starts_with('{') {
        return Ok(fragment_from_json(alloc, text, 1)?);
    }
    fragment_of(alloc, text, 1)
}

/// The fragment over conditional names of a text.
pub(crate) fn conditional(alloc: Global, text: &str) -> Result<Conditional, Fail> {
    let written = written(alloc, text)?;
    Ok(ValidatorSchemaFragment::from_schema_fragment(alloc, written)?)
}

/// The fragment of a text, with its names resolved among its own.
pub(crate) fn resolved_fragment(alloc: Global, text: &str) -> Result<Resolved, Fail> {
    let fragment = conditional(alloc, text)?;
    let all_defs = AllDefs::single_fragment(alloc, &fragment)?;
    Ok(fragment.fully_qualify_type_references(&all_defs)?)
}

/// Whether the copies of a standard entity type and of its parts are shown alike.
fn is_standard_copied(alloc: Global, it: &StandardEntityType<RawName>) -> bool {
    is_alike(alloc, it.clone(), it)
        && is_alike(
            alloc,
            copied_names(&it.member_of_types),
            &it.member_of_types,
        )
        && is_alike(alloc, AttributesOrContext::clone(&it.shape), &it.shape)
}

/// Whether the copies of an entity type and of what it is declared as are shown alike.
fn is_entity_type_copied(alloc: Global, it: &WrittenEntityType<RawName>) -> bool {
    let are_alike = match &it.kind {
        EntityTypeKind::Enum { .. } => true,
        EntityTypeKind::Standard(standard) => is_standard_copied(alloc, standard),
    };
    are_alike
        && is_alike(alloc, EntityTypeKind::clone(&it.kind), &it.kind)
        && is_alike(alloc, WrittenEntityType::clone(it), it)
}

/// Whether the copies of the parents of an action and of what it is for are shown alike.
fn are_parts_copied(alloc: Global, it: &ActionType<RawName>) -> bool {
    let mut are_alike = true;
    if let Some(parents) = &it.member_of {
        for parent in parents {
            are_alike = is_alike(alloc, ActionEntityUID::clone(parent), parent) && are_alike;
        }
    }
    match &it.applies_to {
        Some(requests) => is_alike(alloc, ApplySpec::clone(requests), requests) && are_alike,
        None => are_alike,
    }
}

/// Whether the copies of all entity types that a definition declares are shown alike.
fn are_entity_types_copied(alloc: Global, it: &NamespaceDefinition<RawName>) -> bool {
    let mut are_alike = true;
    for it in it.entity_types.values() {
        are_alike = is_entity_type_copied(alloc, it) && are_alike;
    }
    are_alike
}

/// Whether the copies of all actions that a definition declares are shown alike.
fn are_actions_copied(alloc: Global, it: &NamespaceDefinition<RawName>) -> bool {
    let mut are_alike = true;
    for it in it.actions.values() {
        are_alike = is_alike(alloc, ActionType::clone(it), it) && are_alike;
        are_alike = are_parts_copied(alloc, it) && are_alike;
    }
    are_alike
}

/// Whether the copies of all common types that a definition declares are shown alike.
fn are_common_types_copied(alloc: Global, it: &NamespaceDefinition<RawName>) -> bool {
    let mut are_alike = true;
    for it in it.common_types.values() {
        are_alike = is_alike(alloc, CommonType::clone(it), it) && are_alike;
    }
    are_alike
}

/// Whether the copies of a fragment, of its definitions and of all that they declare are shown
/// alike.
fn is_plain_data_copied(alloc: Global, fragment: Fragment<RawName>) -> bool {
    let mut are_alike = is_alike(alloc, fragment.clone(), &fragment);
    for it in fragment.0.values() {
        are_alike = is_alike(alloc, NamespaceDefinition::clone(it), it)
            && are_entity_types_copied(alloc, it)
            && are_actions_copied(alloc, it)
            && are_common_types_copied(alloc, it)
            && are_alike;
    }
    are_alike
}

#[test]
fn copies_of_plain_data_are_shown_alike(rt: HostRuntime) -> Result<(), Fail> {
    for text in TEXTS {
        let fragment = written(rt.alloc(), text)?;
        holds(is_plain_data_copied(rt.alloc(), fragment), text)?;
    }
    Ok(())
}

/// Whether the copies of common types, and of each of them, are shown alike.
fn common_types_are_copied(alloc: Global, defs: &CommonTypeDefs<ConditionalName>) -> bool {
    let mut are_alike = is_alike(alloc, defs.clone(), defs);
    for def in defs.iter() {
        are_alike = is_alike(alloc, CommonTypeDef::clone(def), def) && are_alike;
    }
    are_alike
}

/// Whether the copies of entity types, of each of them, and of what is declared of it, are shown
/// alike.
fn entity_types_are_copied(alloc: Global, defs: &EntityTypesDef<ConditionalName>) -> bool {
    let mut are_alike = is_alike(alloc, defs.clone(), defs);
    for def in defs.iter() {
        are_alike = is_alike(alloc, EntityTypeDef::clone(def), def) && are_alike;
        are_alike = is_alike(alloc, def.fragment.clone(), &def.fragment) && are_alike;
    }
    are_alike
}

/// Whether the copies of what is declared of an action, and of its parents and requests, are shown
/// alike.
fn declared_action_is_copied(
    alloc: Global,
    declared: &ActionFragment<ConditionalName, ConditionalName>,
) -> bool {
    let mut are_alike = is_alike(alloc, declared.clone(), declared);
    for parent in &declared.parents {
        are_alike = is_alike(alloc, ActionParent::clone(parent), parent) && are_alike;
    }
    match &declared.requests {
        Some(requests) => is_alike(alloc, ActionRequests::clone(requests), requests) && are_alike,
        None => are_alike,
    }
}

/// Whether the copies of actions, of each of them, and of all that is declared of it, are shown
/// alike.
fn actions_are_copied(alloc: Global, defs: &ActionsDef<ConditionalName, ConditionalName>) -> bool {
    let mut are_alike = is_alike(alloc, defs.clone(), defs);
    for def in defs.iter() {
        are_alike = is_alike(alloc, ActionDef::clone(def), def) && are_alike;
        are_alike = declared_action_is_copied(alloc, &def.fragment) && are_alike;
    }
    are_alike
}

/// Whether the copies of a definition's parts are shown alike.
fn parts_are_copied(alloc: Global, definition: Definition) -> bool {
    let (common_types, entity_types, actions) = definition.into_parts();
    common_types_are_copied(alloc, &common_types)
        && entity_types_are_copied(alloc, &entity_types)
        && actions_are_copied(alloc, &actions)
}

/// Whether the copies of a fragment, of its definitions and of their parts are shown alike.
fn is_fragment_copied(alloc: Global, fragment: Conditional) -> bool {
    let mut are_alike = is_alike(alloc, fragment.clone(), &fragment);
    for definition in fragment.into_definitions() {
        are_alike = is_alike(alloc, definition.clone(), &definition) && are_alike;
        are_alike = parts_are_copied(alloc, definition) && are_alike;
    }
    are_alike
}

#[test]
fn copies_of_fragments_are_shown_alike(rt: HostRuntime) -> Result<(), Fail> {
    for text in TEXTS {
        let fragment = conditional(rt.alloc(), text)?;
        holds(is_fragment_copied(rt.alloc(), fragment), text)?;
    }
    Ok(())
}

/// Whether the copy of a resolved fragment is shown alike.
fn is_resolved_copied(alloc: Global, fragment: Resolved) -> bool {
    is_alike(alloc, fragment.clone(), &fragment)
}

#[test]
fn copies_of_resolved_fragments_are_shown_alike(rt: HostRuntime) -> Result<(), Fail> {
    for text in TEXTS {
        let fragment = resolved_fragment(rt.alloc(), text)?;
        holds(is_resolved_copied(rt.alloc(), fragment), text)?;
    }
    Ok(())
}
