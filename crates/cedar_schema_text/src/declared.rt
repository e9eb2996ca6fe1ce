//! What declarations declare, in the order of writing.

ghost use Rattle.std.specs.Prelude.{◌≡◌, ◌++◌, map, option_map, IfOk, OnOk};
ghost use Rattle.cedar_schema_grammar.specs.Plain.{applies_of, body_of, item_of, name_of, parent_of};
ghost use Rattle.cedar_schema_grammar.specs.Tree.{action, entity};
ghost use Rattle.cedar_schema_text.specs.Here.{action_here, common_here, entity_here, lent};
ghost use Rattle.cedar_schema_text.specs.Meaning.{actions_in, actions_of, commons_in, commons_of, entities_in, entities_of};
ghost use Rattle.cedar_schema_text.specs.Named.{named};

use crate::once::Named;
use cedar_ast::{Loc, M};
use cedar_schema_grammar as text;
use std::alloc::Global;

/// The declaration of an entity type.
#[derive(Clone, Copy)]
pub(crate) struct Entity<'a> {
    /// Its name.
    pub(crate) name: &'a text::Name,
    /// Whether it is external.
    pub(crate) external: bool,
    /// Its body.
    pub(crate) body: &'a text::Body,
}

/// The declaration of an action.
#[derive(Clone, Copy)]
pub(crate) struct Action<'a> {
    /// Its name.
    pub(crate) name: &'a text::Name,
    /// Whether it is external.
    pub(crate) external: bool,
    /// Its parents, where some are written.
    pub(crate) parents: &'a Option<Vec<text::Parent>>,
    /// The requests that it is for, where they are written.
    pub(crate) applies: &'a Option<text::Applies>,
    /// Where the declaration stands.
    pub(crate) loc: Loc,
}

/// The declaration of a common type.
#[derive(Clone, Copy)]
pub(crate) struct Common<'a> {
    /// Its name.
    pub(crate) name: &'a text::Name,
    /// The type that it stands for.
    pub(crate) of: &'a text::Type,
}

/// Puts an entity type for each name behind others.
fn push_entities<'a>(
    all: &mut Vec<Entity<'a>>,
    external: bool,
    names: &'a [text::Name],
    body: &'a text::Body,
) -> M<()>
    ensures { OnOk result (map entity_here all.new.items ≡ map entity_here all.old.items
        ++ entities_of (entity external (map name_of names.now) (body_of body.now))) }
{
    for name in names {
        all.push(Entity {
            name,
            external,
            body,
        })?;
    }
    Ok(())
}

/// Puts the entity types that are declared behind others.
fn push_entities_of<'a>(all: &mut Vec<Entity<'a>>, item: &'a text::Item) -> M<()>
    ensures { OnOk result (map entity_here all.new.items
        ≡ map entity_here all.old.items ++ entities_of (item_of item.now)) }
{
    match item {
        text::Item::Entity {
            external,
            names,
            body,
        } => push_entities(all, *external, names, body),
        text::Item::Action { .. } | text::Item::Common { .. } => Ok(()),
    }
}

/// The entity types that are declared.
pub(crate) fn entities_in<'a>(
    alloc: Global,
    declarations: &[&'a text::Declaration],
) -> M<Vec<Entity<'a>>>
    ensures { IfOk result (λ all.
        map entity_here all.items ≡ entities_in (map lent declarations.now)) }
{
    let mut all = Vec::new(alloc);
    for declaration in declarations {
        push_entities_of(&mut all, &declaration.item)?;
    }
    Ok(all)
}

/// The names of some entity types.
pub(crate) fn entity_names<'a>(alloc: Global, entities: &[Entity<'a>]) -> M<Vec<Named<'a>>>
    ensures { IfOk result (λ all.
        map named all.items ≡ map (λ it. it.name) (map entity_here entities.now)) }
{
    let mut all = Vec::with_capacity(alloc, entities.len())?;
    for entity in entities {
        all.push(Named {
            text: entity.name.text.as_str(),
            loc: entity.name.loc,
        })?;
    }
    Ok(all)
}

/// Puts an action for each name behind others, like one whose name doesn't matter.
fn push_actions<'a>(
    all: &mut Vec<Action<'a>>,
    names: &'a [text::Name],
    external: bool,
    parents: &'a Option<Vec<text::Parent>>,
    applies: &'a Option<text::Applies>,
    loc: Loc,
) -> M<()>
    ensures { OnOk result (map action_here all.new.items ≡ map action_here all.old.items
        ++ actions_of loc (action external (map name_of names.now)
        (option_map (λ v. map parent_of v.items) parents.now)
        (option_map applies_of applies.now))) }
{
    for name in names {
        all.push(Action {
            name,
            external,
            parents,
            applies,
            loc,
        })?;
    }
    Ok(())
}

/// Puts the actions that are declared behind others.
fn push_actions_of<'a>(all: &mut Vec<Action<'a>>, declaration: &'a text::Declaration) -> M<()>
    ensures { OnOk result (map action_here all.new.items ≡ map action_here all.old.items
        ++ actions_of declaration.now.loc (item_of declaration.now.item)) }
{
    match &declaration.item {
        text::Item::Action {
            external,
            names,
            parents,
            applies,
        } => push_actions(all, names, *external, parents, applies, declaration.loc),
        text::Item::Entity { .. } | text::Item::Common { .. } => Ok(()),
    }
}

/// The actions that are declared.
pub(crate) fn actions_in<'a>(
    alloc: Global,
    declarations: &[&'a text::Declaration],
) -> M<Vec<Action<'a>>>
    ensures { IfOk result (λ all.
        map action_here all.items ≡ actions_in (map lent declarations.now)) }
{
    let mut all = Vec::new(alloc);
    for declaration in declarations {
        push_actions_of(&mut all, declaration)?;
    }
    Ok(all)
}

/// The names of some actions.
pub(crate) fn action_names<'a>(alloc: Global, actions: &[Action<'a>]) -> M<Vec<Named<'a>>>
    ensures { IfOk result (λ all.
        map named all.items ≡ map (λ it. it.name) (map action_here actions.now)) }
{
    let mut all = Vec::with_capacity(alloc, actions.len())?;
    for action in actions {
        all.push(Named {
            text: action.name.text.as_str(),
            loc: action.name.loc,
        })?;
    }
    Ok(all)
}

/// Puts the common type that is declared behind others.
fn push_commons_of<'a>(all: &mut Vec<Common<'a>>, item: &'a text::Item) -> M<()>
    ensures { OnOk result (map common_here all.new.items
        ≡ map common_here all.old.items ++ commons_of (item_of item.now)) }
{
    match item {
        text::Item::Common { name, of } => Ok(all.push(Common { name, of })?),
        text::Item::Entity { .. } | text::Item::Action { .. } => Ok(()),
    }
}

/// The common types that are declared.
pub(crate) fn commons_in<'a>(
    alloc: Global,
    declarations: &[&'a text::Declaration],
) -> M<Vec<Common<'a>>>
    ensures { IfOk result (λ all.
        map common_here all.items ≡ commons_in (map lent declarations.now)) }
{
    let mut all = Vec::new(alloc);
    for declaration in declarations {
        push_commons_of(&mut all, &declaration.item)?;
    }
    Ok(all)
}

/// The names of some common types.
pub(crate) fn common_names<'a>(alloc: Global, commons: &[Common<'a>]) -> M<Vec<Named<'a>>>
    ensures { IfOk result (λ all.
        map named all.items ≡ map (λ it. it.name) (map common_here commons.now)) }
{
    let mut all = Vec::with_capacity(alloc, commons.len())?;
    for common in commons {
        all.push(Named {
            text: common.name.text.as_str(),
            loc: common.name.loc,
        })?;
    }
    Ok(all)
}
