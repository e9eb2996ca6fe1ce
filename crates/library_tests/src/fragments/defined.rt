//! Names that are defined, those that would shadow others, and what is gathered with them.

use crate::asked::{Question, Rows, check};
use crate::fragments::copies::{Conditional, conditional};
use crate::fragments::shown::is_alike;
use cedar_ast::M;
use cedar_fragments::CollectedDeclarations;
use cedar_name_resolution::defs::{AllDefs, DeclaresNames, NameLists};
use checked::holds;
use checked::names::internal_name;
use std::alloc::Global;
use std::test::Fail;

/// A text with declarations of each kind, of which some come twice.
const WRITTEN: &str = "namespace N { type C = Long; entity T, U; action b; }
namespace M { entity T; action b; }
type C = Long;
entity T;
action view;";

/// What a fragment defines, listed by hand.
fn listed(alloc: Global, fragment: &Conditional) -> M<AllDefs> {
    let mut name_lists = NameLists::with_room(alloc, 1)?;
    name_lists.add_fragment(fragment)?;
    name_lists.into_defs()
}

/// The same where the fragment lists its own names.
fn listed_by_itself(alloc: Global, fragment: &Conditional) -> M<AllDefs> {
    let mut name_lists = NameLists::none(alloc);
    fragment.list_names(&mut name_lists)?;
    name_lists.into_defs()
}

/// The same where it is gathered, with how many declarations there are of each kind.
fn gathered(alloc: Global, fragment: Conditional) -> M<(AllDefs, (usize, usize, usize))> {
    let CollectedDeclarations {
        names,
        declarations,
    } = CollectedDeclarations::with_room(alloc, 1)?.with(fragment)?;
    let counts = (
        declarations.common_types.len(),
        declarations.entity_types.len(),
        declarations.actions.len(),
    );
    Ok((names.into_defs()?, counts))
}

#[test]
fn names_are_listed_fragment_by_fragment(rt: HostRuntime) -> Result<(), Fail> {
    let alloc = rt.alloc();
    let fragments = vec![in alloc; conditional(alloc, WRITTEN)?]?;
    let defined = AllDefs::new(alloc, &fragments)?;
    for fragment in &fragments {
        holds(
            is_alike(alloc, listed(alloc, fragment), &defined),
            "by hand",
        )?;
        holds(
            is_alike(alloc, listed_by_itself(alloc, fragment), &defined),
            "by itself",
        )?;
    }
    for fragment in fragments {
        let (names, counts) = gathered(alloc, fragment)?;
        holds(counts == (2, 4, 3), "kinds of declarations")?;
        holds(is_alike(alloc, Ok(names), &defined), "gathered")?;
    }
    Ok(())
}

/// What is asked about names.
#[derive(Clone, Copy)]
enum Asked {
    /// Which kinds of type a name is of, before the types of actions are added and after that.
    Kinds,
    /// Whether one of the entity types or, behind a bar, of the common types would shadow another.
    Shadowing,
}

/// Whether a name is that of an entity type before and after the types of actions are added, and of
/// a common type.
fn kinds(alloc: Global, name: &str) -> Result<String, Fail> {
    let name = internal_name(alloc, name)?;
    let fragment = conditional(alloc, WRITTEN)?;
    let all_defs = AllDefs::single_fragment(alloc, &fragment)?;
    let before = all_defs.is_defined_as_entity(&name);
    let all_defs = all_defs.with_action_types()?;
    let after = all_defs.is_defined_as_entity(&name);
    let is_common = all_defs.is_defined_as_common(&name);
    Ok(format!(in alloc; "{before} {after} {is_common}")?)
}

/// Those entity types, and behind a bar those common types.
fn marked(alloc: Global, text: &str) -> Result<AllDefs, Fail> {
    let (entity_types, common_types) = text.split_once(" | ").ok_or("no bar")?;
    let mut all_defs = NameLists::none(alloc).into_defs()?;
    for name in entity_types.split_whitespace() {
        all_defs.mark_as_defined_as_entity_type(internal_name(alloc, name)?)?;
    }
    for name in common_types.split_whitespace() {
        all_defs.mark_as_defined_as_common_type(internal_name(alloc, name)?)?;
    }
    Ok(all_defs)
}

/// What the check of such names answers.
fn shadowing(alloc: Global, text: &str) -> Result<String, Fail> {
    match marked(alloc, text)?.rfc_70_shadowing_checks() {
        Ok(()) => Ok(String::from_str(alloc, "none")?),
        Err(error) => Ok(format!(in alloc; "{error}")?),
    }
}

impl Question for Asked {
    fn answer(self, alloc: Global, text: &str) -> Result<String, Fail> {
        match self {
            Asked::Kinds => kinds(alloc, text),
            Asked::Shadowing => shadowing(alloc, text),
        }
    }
}

/// Names, each with the kinds of type that it is of.
const KINDS: Rows = &[
    ("N::T", "true true false"),
    ("N::Action", "false true false"),
    ("M::Action", "false true false"),
    ("Action", "false true false"),
    ("Gone", "false false false"),
    ("C", "false false true"),
];

/// Names that would shadow others, and such that wouldn't.
const SHADOWING: Rows = &[
    ("N::T T | ", "the type N::T would shadow the type T"),
    ("N::M::T | T", "the type N::M::T would shadow the type T"),
    ("T | S N::T", "the type N::T would shadow the type T"),
    ("N::T U | N::T V", "none"),
    ("N::T M::T | N::M::T", "none"),
    ("T | __cedar::T", "none"),
];

#[test]
fn names_are_of_kinds_and_may_shadow_others(rt: HostRuntime) -> Result<(), Fail> {
    check(
        rt.alloc(),
        &[(Asked::Kinds, KINDS), (Asked::Shadowing, SHADOWING)],
    )
}
