//! The names that fragments declare.

ghost use Rattle.std.specs.Prelude.{◌∷◌, IfOk, OnOk, map};
ghost use Rattle.cedar_ast.specs.Words.{action_word, name_of, unreserved_id_text};
ghost use Rattle.cedar_name_resolution.specs.Words.{HasAlso, HoldsAlso, HoldsJust, held_names, listed_names, name_within, names_together, namespace_name};
ghost use Rattle.cedar_schema_ast.specs.Words.{common_type_text, raw_bag, raw_declarations, raw_fragment};
ghost use Rattle.cedar_schema_text_writer.specs.Names.{names_of_bag};

use crate::scope::namespace_of;
use cedar_ast::{InternalName, M, UnreservedId, identifier};
use cedar_name_resolution::defs::{AllDefs, NameLists};
use cedar_name_resolution::full_name::name_in;
use cedar_schema_ast::json_schema::{
    ActionType, CommonType, CommonTypeId, EntityType, Fragment, NamespaceDefinition, RawName,
};
use std::alloc::Global;
use std::collections::BTreeMap;

/// Adds the names of some common types.
fn add_common_types(
    alloc: Global,
    names: &mut Vec<InternalName>,
    namespace: Option<&InternalName>,
    all: &BTreeMap<CommonTypeId, CommonType<RawName>>,
) -> M<()>
    ensures { OnOk result (HasAlso (map name_of names.new.items) (map name_of names.old.items)
        (map (λ entry. name_within (namespace_name namespace.entry) (common_type_text entry.0))
        all.now.entries)) }
{
    for (id, _common_type) in all {
        let id = id.as_id().as_id().clone()?;
        names.push(name_in(alloc, namespace, id, None)?)?;
    }
    Ok(())
}

/// Adds the names of some entity types.
fn add_entity_types(
    alloc: Global,
    names: &mut Vec<InternalName>,
    namespace: Option<&InternalName>,
    all: &BTreeMap<UnreservedId, EntityType<RawName>>,
) -> M<()>
    ensures { OnOk result (HasAlso (map name_of names.new.items) (map name_of names.old.items)
        (map (λ entry. name_within (namespace_name namespace.entry) (unreserved_id_text entry.0))
        all.now.entries)) }
{
    for (id, _entity_type) in all {
        let id = id.as_id().clone()?;
        names.push(name_in(alloc, namespace, id, None)?)?;
    }
    Ok(())
}

/// Adds the type of some actions, where there are some.
fn add_action_type(
    alloc: Global,
    names: &mut Vec<InternalName>,
    namespace: Option<&InternalName>,
    all: &BTreeMap<String, ActionType<RawName>>,
) -> M<()>
    ensures { OnOk result (HasAlso (map name_of names.new.items) (map name_of names.old.items)
        (map (λ _. name_within (namespace_name namespace.entry) action_word) all.now.entries)) }
{
    if all.is_empty() {
        return Ok(());
    }
    let word = identifier(alloc, "Action")?;
    names.push(name_in(alloc, namespace, word, None)?)?;
    Ok(())
}

/// Adds the names that a definition declares.
fn add_definition(
    lists: &mut NameLists,
    namespace: Option<&InternalName>,
    it: &NamespaceDefinition<RawName>,
) -> M<()>
    ensures { OnOk result (HoldsAlso (listed_names lists.new) (listed_names lists.old)
        (names_of_bag (raw_declarations (namespace_name namespace.entry) it.now))) }
{
    let alloc = lists.alloc;
    add_common_types(alloc, &mut lists.common, namespace, &it.common_types)?;
    add_entity_types(alloc, &mut lists.entities, namespace, &it.entity_types)?;
    add_action_type(alloc, &mut lists.entities, namespace, &it.actions)
}

/// Adds the names that a fragment declares.
fn add_fragment(lists: &mut NameLists, fragment: &Fragment<RawName>) -> M<()>
    ensures { OnOk result (HoldsAlso (listed_names lists.new) (listed_names lists.old)
        (names_of_bag (raw_fragment fragment.now))) }
{
    for (namespace, it) in &fragment.0 {
        add_definition(lists, namespace_of(namespace), it)?;
    }
    Ok(())
}

/// Adds the names that some fragments declare.
fn add_fragments(lists: &mut NameLists, fragments: &[Fragment<RawName>]) -> M<()>
    ensures { OnOk result (HoldsAlso (listed_names lists.new) (listed_names lists.old)
        (names_together (λ one. names_of_bag (raw_fragment one)) fragments.now)) }
{
    for fragment in fragments {
        add_fragment(lists, fragment)?;
    }
    Ok(())
}

/// The names that a fragment and those beside it declare: of common types, and of entity types,
/// with the types of actions among them.
pub(crate) fn declared_names(
    alloc: Global,
    fragment: &Fragment<RawName>,
    beside: &[Fragment<RawName>],
) -> M<AllDefs>
    ensures { IfOk result (λ known. HoldsJust (held_names known)
        (names_of_bag (raw_bag (fragment.now ∷ beside.now)))) }
{
    let mut lists = NameLists::none(alloc);
    add_fragment(&mut lists, fragment)?;
    add_fragments(&mut lists, beside)?;
    lists.into_defs()
}
