//! The declarations of a namespace.

ghost use Rattle.std.specs.Prelude.{◌≡◌, ◌++◌, [], map, option_map, IfOk, IfErr, OnOk};
ghost use Rattle.std.specs.List.{flat_map};
ghost use Rattle.cedar_ast.specs.Words.{text_cmp};
ghost use Rattle.cedar_schema_grammar.specs.Plain.{applies_of, parent_of};
ghost use Rattle.cedar_schema_text.specs.Faults.{IsAmong, action_faults, actions_faults, body_faults, commons_faults, definition_faults, entities_faults, if_there, noted_faults, parent_faults, requests_faults};
ghost use Rattle.cedar_schema_text.specs.Here.{action_here, common_here, entity_here, lent};
ghost use Rattle.cedar_schema_text.specs.Meaning.{action_meant, actions_in, common_meant, commons_in, definition_meant, entities_in, entity_meant, in_order, parent_meant, requests_meant};
ghost use Rattle.cedar_schema_text.specs.Shown.{action_shown, actions_shown, common_types_shown, definition_shown, entity_type_shown, entity_types_shown, parent_shown, requests_shown};

use crate::actions::{parents, requests};
use crate::declared::{
    Action, Common, Entity, action_names, actions_in, common_names, commons_in, entities_in,
    entity_names,
};
use crate::entity_types::kind;
use crate::fault::{MeaningFault, Repeated};
use crate::names::{common_type, unreserved};
use crate::once::{check_annotations, check_once};
use crate::types::type_of;
use cedar_ast::{Loc, UnreservedId, put};
use cedar_schema_ast::json_schema::{
    ActionEntityUID, ActionType, ApplySpec, CommonType, CommonTypeId, EntityType,
    NamespaceDefinition, RawName,
};
use cedar_schema_grammar as text;
use std::alloc::Global;
use std::collections::BTreeMap;

/// Refuses declarations of which one has an annotation twice.
fn check_noted(alloc: Global, declarations: &[&text::Declaration]) -> Result<(), MeaningFault>
    ensures none { OnOk result (flat_map noted_faults (map lent declarations.now) ≡ []) }
    ensures fault { IfErr result
        (IsAmong (flat_map noted_faults (map lent declarations.now))) }
{
    for declaration in declarations {
        check_annotations(alloc, &declaration.annotations)?;
    }
    Ok(())
}

/// The common types that some declarations declare, each under its id.
fn common_types(
    alloc: Global,
    commons: &[Common<'_>],
) -> Result<BTreeMap<CommonTypeId, CommonType<RawName>>, MeaningFault>
    ensures meant { IfOk result (λ all. common_types_shown all
        ≡ in_order text_cmp (map common_meant (map common_here commons.now))) }
    ensures none { OnOk result (commons_faults (map common_here commons.now) ≡ []) }
    ensures fault { IfErr result (IsAmong (commons_faults (map common_here commons.now))) }
{
    check_once(alloc, Repeated::CommonType, &common_names(alloc, commons)?)?;
    let mut all = BTreeMap::new(alloc);
    for common in commons {
        let id = common_type(alloc, common.name)?;
        let declared = CommonType {
            ty: type_of(alloc, common.of)?,
            loc: Some(common.name.loc),
        };
        put(&mut all, id, declared)?;
    }
    Ok(all)
}

/// What the declaration of an entity type declares.
fn entity_type(alloc: Global, entity: &Entity<'_>) -> Result<EntityType<RawName>, MeaningFault>
    ensures meant { IfOk result (λ it.
        entity_type_shown it ≡ (entity_meant (entity_here entity.now)).1) }
    ensures none { OnOk result
        (body_faults entity.now.name.now.loc (entity_here entity.now).body ≡ []) }
    ensures fault { IfErr result
        (IsAmong (body_faults entity.now.name.now.loc (entity_here entity.now).body)) }
{
    let loc = entity.name.loc;
    Ok(EntityType {
        kind: kind(alloc, entity.body, loc)?,
        external: entity.external,
        loc: Some(loc),
    })
}

/// The entity types that some declarations declare, each under its id.
fn entity_types(
    alloc: Global,
    entities: &[Entity<'_>],
) -> Result<BTreeMap<UnreservedId, EntityType<RawName>>, MeaningFault>
    ensures meant { IfOk result (λ all. entity_types_shown all
        ≡ in_order text_cmp (map entity_meant (map entity_here entities.now))) }
    ensures none { OnOk result (entities_faults (map entity_here entities.now) ≡ []) }
    ensures fault { IfErr result (IsAmong (entities_faults (map entity_here entities.now))) }
{
    check_once(alloc, Repeated::EntityType, &entity_names(alloc, entities)?)?;
    let mut all = BTreeMap::new(alloc);
    for entity in entities {
        let id = unreserved(alloc, entity.name)?;
        let declared = entity_type(alloc, entity)?;
        put(&mut all, id, declared)?;
    }
    Ok(all)
}

/// The actions that some parents are, where they are written.
fn member_of(
    alloc: Global,
    written: &Option<Vec<text::Parent>>,
) -> Result<Option<Vec<ActionEntityUID<RawName>>>, MeaningFault>
    ensures meant { IfOk result (λ it. option_map (λ all. map parent_shown all.items) it
        ≡ option_map (map parent_meant) (option_map (λ v. map parent_of v.items) written.now)) }
    ensures none { OnOk result (if_there (flat_map parent_faults)
        (option_map (λ v. map parent_of v.items) written.now) ≡ []) }
    ensures fault { IfErr result (IsAmong (if_there (flat_map parent_faults)
        (option_map (λ v. map parent_of v.items) written.now))) }
{
    match written {
        Some(written) => Ok(Some(parents(alloc, written)?)),
        None => Ok(None),
    }
}

/// The requests that an action is for, where they are written.
fn applies_to(
    alloc: Global,
    written: &Option<text::Applies>,
) -> Result<Option<ApplySpec<RawName>>, MeaningFault>
    ensures meant { IfOk result (λ it. option_map requests_shown it
        ≡ option_map requests_meant (option_map applies_of written.now)) }
    ensures none { OnOk result
        (if_there requests_faults (option_map applies_of written.now) ≡ []) }
    ensures fault { IfErr result
        (IsAmong (if_there requests_faults (option_map applies_of written.now))) }
{
    match written {
        Some(applies) => Ok(Some(requests(alloc, applies)?)),
        None => Ok(None),
    }
}

/// What the declaration of an action declares.
fn action(alloc: Global, action: &Action<'_>) -> Result<ActionType<RawName>, MeaningFault>
    ensures meant { IfOk result (λ it.
        action_shown it ≡ (action_meant (action_here action.now)).1) }
    ensures none { OnOk result (action_faults (action_here action.now) ≡ []) }
    ensures fault { IfErr result (IsAmong (action_faults (action_here action.now))) }
{
    let member_of = member_of(alloc, action.parents)?;
    Ok(ActionType {
        attributes: None,
        applies_to: applies_to(alloc, action.applies)?,
        member_of,
        external: action.external,
        loc: Some(action.name.loc),
        defn_loc: Some(action.loc),
    })
}

/// The actions that some declarations declare, each under its id.
fn actions(
    alloc: Global,
    declared: &[Action<'_>],
) -> Result<BTreeMap<String, ActionType<RawName>>, MeaningFault>
    ensures meant { IfOk result (λ all. actions_shown all
        ≡ in_order text_cmp (map action_meant (map action_here declared.now))) }
    ensures none { OnOk result (actions_faults (map action_here declared.now) ≡ []) }
    ensures fault { IfErr result (IsAmong (actions_faults (map action_here declared.now))) }
{
    check_once(alloc, Repeated::Action, &action_names(alloc, declared)?)?;
    let mut all = BTreeMap::new(alloc);
    for one in declared {
        let id = String::from_str(alloc, one.name.text.as_str())?;
        put(&mut all, id, action(alloc, one)?)?;
    }
    Ok(all)
}

/// The common types that declarations declare.
fn common_types_in(
    alloc: Global,
    declarations: &[&text::Declaration],
) -> Result<BTreeMap<CommonTypeId, CommonType<RawName>>, MeaningFault>
    ensures meant { IfOk result (λ all. common_types_shown all
        ≡ in_order text_cmp (map common_meant (commons_in (map lent declarations.now)))) }
    ensures none { OnOk result (commons_faults (commons_in (map lent declarations.now)) ≡ []) }
    ensures fault { IfErr result
        (IsAmong (commons_faults (commons_in (map lent declarations.now)))) }
{
    common_types(alloc, &commons_in(alloc, declarations)?)
}

/// The entity types that declarations declare.
fn entity_types_in(
    alloc: Global,
    declarations: &[&text::Declaration],
) -> Result<BTreeMap<UnreservedId, EntityType<RawName>>, MeaningFault>
    ensures meant { IfOk result (λ all. entity_types_shown all
        ≡ in_order text_cmp (map entity_meant (entities_in (map lent declarations.now)))) }
    ensures none { OnOk result (entities_faults (entities_in (map lent declarations.now)) ≡ []) }
    ensures fault { IfErr result
        (IsAmong (entities_faults (entities_in (map lent declarations.now)))) }
{
    entity_types(alloc, &entities_in(alloc, declarations)?)
}

/// The actions that declarations declare.
fn actions_of(
    alloc: Global,
    declarations: &[&text::Declaration],
) -> Result<BTreeMap<String, ActionType<RawName>>, MeaningFault>
    ensures meant { IfOk result (λ all. actions_shown all
        ≡ in_order text_cmp (map action_meant (actions_in (map lent declarations.now)))) }
    ensures none { OnOk result (actions_faults (actions_in (map lent declarations.now)) ≡ []) }
    ensures fault { IfErr result
        (IsAmong (actions_faults (actions_in (map lent declarations.now)))) }
{
    actions(alloc, &actions_in(alloc, declarations)?)
}

/// The definition of a namespace with these declarations, which stand at this place.
pub(crate) fn definition(
    alloc: Global,
    declarations: &[&text::Declaration],
    loc: Option<Loc>,
) -> Result<NamespaceDefinition<RawName>, MeaningFault>
    ensures meant { IfOk result (λ it.
        definition_shown it ≡ definition_meant (map lent declarations.now) loc) }
    ensures none { OnOk result (definition_faults (map lent declarations.now) ≡ []) }
    ensures fault { IfErr result (IsAmong (definition_faults (map lent declarations.now))) }
{
    check_noted(alloc, declarations)?;
    let common_types = common_types_in(alloc, declarations)?;
    let entity_types = entity_types_in(alloc, declarations)?;
    Ok(NamespaceDefinition {
        common_types,
        entity_types,
        actions: actions_of(alloc, declarations)?,
        loc,
    })
}
