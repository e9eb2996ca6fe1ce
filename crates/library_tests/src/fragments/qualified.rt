//! What definitions and their parts come to name, each qualified by itself.

use crate::fragments::copies::{
    Definition, TEXTS, WRITTEN, WRITTEN_BY_KIND, conditional, resolved_fragment, written,
};
use crate::fragments::shown::{shown, stands_in};
use cedar_fragments::namespace::{
    ActionFragment, ActionsDef, CommonTypeDefs, EntityTypeFragment, EntityTypesDef,
    UnqualifiedActionType, ValidatorNamespaceDef, ValidatorSchemaFragment,
};
use cedar_name_resolution::defs::AllDefs;
use cedar_schema_ast::json_schema::ConditionalName;
use checked::{holds, same};
use std::alloc::Global;
use std::test::Fail;

/// What the fragment of a text becomes as it is written, with its names resolved among its own.
fn resolved_as_written(alloc: Global, text: &str) -> Result<String, Fail> {
    let unqualified = UnqualifiedActionType::new(alloc)?;
    let written = written(alloc, text)?;
    let fragment = ValidatorSchemaFragment::as_written(alloc, written, &unqualified)?;
    let all_defs = AllDefs::single_fragment(alloc, &fragment)?;
    Ok(shown(alloc, fragment.qualify_within(&all_defs)?)?)
}

/// What is shown of an attribute, of the parents of an action, of its principals, and of an external
/// entity type and action: the names of what they name, at the places where they are written.
const NAMED: &[&str] = &[
    "\"a\": TypeOfAttribute { ty: Plain { ty: EntityOrCommon { type_name: InternalName { \
     id: Id { text: \"T\" }, path: [Id { text: \"N\" }], loc: Some(Loc { source: 1, start: \
     90, stop: 91 }) } }, loc: Some(Loc { source: 1, start: 90, stop: 91 }) }, required: \
     true, loc: Some(Loc { source: 1, start: 87, stop: 88 }) }",
    "parents: [ActionParent { id: \"all\", ty: EntityType(Name { name: InternalName { id: \
     Id { text: \"Action\" }, path: [Id { text: \"N\" }], loc: Some(Loc { source: 1, start: \
     186, stop: 189 }) } }), loc: Some(Loc { source: 1, start: 186, stop: 189 }) }",
    "principals: [InternalName { id: Id { text: \"T\" }, path: [Id { text: \"N\" }], loc: \
     Some(Loc { source: 1, start: 238, stop: 239 }) }, ",
    "fragment: External { parents: [InternalName { id: Id { text: \"T\" }, path: [Id { text: \
     \"N\" }], loc: Some(Loc { source: 1, start: 314, stop: 315 }) }] }",
    "requests: None, parents: [ActionParent { id: \"all\", ty: EntityType(Name { name: \
     InternalName { id: Id { text: \"Action\" }, path: [Id { text: \"N\" }], loc: Some(Loc { \
     source: 1, start: 344, stop: 347 }) } }), loc: Some(Loc { source: 1, start: 344, stop: \
     347 }) }], loc: Some(Loc { source: 1, start: 336, stop: 339 })",
];

/// The same of an entity type, a common type, an extension type and a context.
const NAMED_BY_KIND: &[&str] = &[
    "ty: Plain { ty: Entity { name: InternalName { id: Id { text: \"T\" }, path: [Id { text: \
     \"N\" }], loc: Some(Loc { source: 1, start: 378, stop: 381 }) } }, loc: Some(Loc { \
     source: 1, start: 351, stop: 382 }) }, required: true",
    "ty: CommonTypeRef { type_name: InternalName { id: Id { text: \"C\" }, path: [Id { text: \
     \"N\" }], loc: Some(Loc { source: 1, start: 154, stop: 157 }) }, loc: Some(Loc { source: \
     1, start: 145, stop: 177 }) }, required: false",
    "tags: Some(Plain { ty: Extension { name: UnreservedId { id: Id { text: \"ipaddr\" } } }, \
     loc: Some(Loc { source: 1, start: 256, stop: 295 }) })",
    "context: CommonTypeRef { type_name: InternalName { id: Id { text: \"D\" }, path: [Id { \
     text: \"N\" }], loc: Some(Loc { source: 1, start: 506, stop: 509 }) }, loc: Some(Loc { \
     source: 1, start: 497, stop: 510 }) }",
];

/// Fails where a part isn't shown of the fragment of a text, resolved among its own names, or where
/// something else is shown of it as it is written.
fn check_resolved(alloc: Global, text: &str, parts: &[&str]) -> Result<(), Fail> {
    let resolved = shown(alloc, resolved_fragment(alloc, text)?)?;
    let written = resolved_as_written(alloc, text)?;
    same("as it is written", written.as_str(), resolved.as_str())?;
    for part in parts {
        holds(resolved.contains(part), part)?;
    }
    Ok(())
}

#[test]
fn one_fragment_is_resolved_among_its_own_names(rt: HostRuntime) -> Result<(), Fail> {
    check_resolved(rt.alloc(), WRITTEN, NAMED)?;
    check_resolved(rt.alloc(), WRITTEN_BY_KIND, NAMED_BY_KIND)
}

/// Whether what is declared of each entity type, qualified by itself, is shown in a text.
fn entity_types_stand_in(
    alloc: Global,
    text: &str,
    defs: &EntityTypesDef<ConditionalName>,
    all_defs: &AllDefs,
) -> bool {
    let mut all = true;
    for def in defs.iter() {
        let Ok(declared) = def.fragment.clone() else {
            return false;
        };
        let qualified = EntityTypeFragment::fully_qualify_type_references(declared, all_defs);
        all = stands_in(alloc, qualified, text) && all;
    }
    all
}

/// Whether what is declared of each action, qualified by itself, is shown in a text.
fn actions_stand_in(
    alloc: Global,
    text: &str,
    defs: &ActionsDef<ConditionalName, ConditionalName>,
    all_defs: &AllDefs,
) -> bool {
    let mut all = true;
    for def in defs.iter() {
        let Ok(declared) = def.fragment.clone() else {
            return false;
        };
        let qualified = ActionFragment::fully_qualify_type_references(declared, all_defs);
        all = stands_in(alloc, qualified, text) && all;
    }
    all
}

/// Whether the parts of a definition, each qualified by itself, are shown in a text.
fn parts_stand_in(alloc: Global, text: &str, definition: Definition, all_defs: &AllDefs) -> bool {
    let (common_types, entity_types, actions) = definition.into_parts();
    let are_declared = entity_types_stand_in(alloc, text, &entity_types, all_defs)
        && actions_stand_in(alloc, text, &actions, all_defs);
    let common_types = CommonTypeDefs::fully_qualify_type_references(common_types, all_defs);
    let entity_types = EntityTypesDef::fully_qualify_type_references(entity_types, all_defs);
    let actions = ActionsDef::fully_qualify_type_references(actions, all_defs);
    are_declared
        && stands_in(alloc, common_types, text)
        && stands_in(alloc, entity_types, text)
        && stands_in(alloc, actions, text)
}

/// Whether a definition, qualified by itself, and its parts are shown in a text.
fn definition_stands_in(
    alloc: Global,
    text: &str,
    definition: Definition,
    all_defs: &AllDefs,
) -> bool {
    let Ok(copy) = definition.clone() else {
        return false;
    };
    let qualified = ValidatorNamespaceDef::fully_qualify_type_references(copy, all_defs);
    stands_in(alloc, qualified, text) && parts_stand_in(alloc, text, definition, all_defs)
}

/// Fails where a definition of a text or a part of it, qualified by itself, isn't shown in the whole
/// fragment.
fn check_parts(alloc: Global, text: &str) -> Result<(), Fail> {
    let whole = shown(alloc, resolved_fragment(alloc, text)?)?;
    let fragment = conditional(alloc, text)?;
    let all_defs = AllDefs::single_fragment(alloc, &fragment)?;
    for definition in fragment.into_definitions() {
        holds(
            definition_stands_in(alloc, whole.as_str(), definition, &all_defs),
            whole.as_str(),
        )?;
    }
    Ok(())
}

#[test]
fn parts_are_qualified_as_in_their_fragment(rt: HostRuntime) -> Result<(), Fail> {
    for text in TEXTS {
        check_parts(rt.alloc(), text)?;
    }
    Ok(())
}
