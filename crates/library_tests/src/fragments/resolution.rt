//! What references resolve to, by what is defined under their names.

use crate::asked::{Question, Rows, check, told};
use crate::fragments::copies::conditional;
use crate::fragments::shown::is_alike;
use crate::types::test_values::PLACE;
use cedar_ast::EntityType;
use cedar_fragments::namespace::ActionParent;
use cedar_name_resolution::defs::{AllDefs, ResolveName, WrittenName, resolve_all};
use cedar_schema_ast::json_schema::{ConditionalName, ReferenceType, Type, TypeVariant};
use cedar_schema_elements::ValidatorApplySpec;
use checked::names::{internal_name, raw};
use checked::{holds, same};
use std::alloc::Global;
use std::collections::HashSet;
use std::fmt::Write;
use std::test::Fail;

/// A reference of a kind that is written in the namespace `N`.
fn reference(alloc: Global, written: &str, kind: ReferenceType) -> Result<ConditionalName, Fail> {
    let inside = internal_name(alloc, "N")?;
    Ok(raw(alloc, written)?.conditionally_qualify_with(alloc, Some(&inside), kind)?)
}

/// What is declared, beside two types in a reserved namespace.
const DEFINED: &str = "namespace N {
  type T = Long;
  type Both = Long;
  entity Both;
  action a;
}
entity T, Only;
action b;";

/// The names of that.
fn defined(alloc: Global) -> Result<AllDefs, Fail> {
    let mut all_defs = AllDefs::single_fragment(alloc, &conditional(alloc, DEFINED)?)?;
    all_defs.mark_as_defined_as_common_type(internal_name(alloc, "__cedar::Foo")?)?;
    all_defs.mark_as_defined_as_entity_type(internal_name(alloc, "__cedar::U")?)?;
    Ok(all_defs)
}

/// What is asked about a text that is written in the namespace `N`.
#[derive(Clone, Copy)]
enum Asked {
    /// What a reference of the kind resolves to.
    Reference(ReferenceType),
    /// What it stands for as a raw name, at a position of the kind.
    Raw(ReferenceType),
    /// What it stands for as a reference, at a position of the kind.
    Conditional(ReferenceType),
    /// The action of which it is the type, `::` and the id.
    Parent,
    /// What several entity types, with a blank between them, resolve to.
    Several,
    /// What requests by the principal on itself come to name.
    Requests,
}

/// What a name stands for in the namespace `N`, or why the reference that it is there is refused.
fn found_within<N: WrittenName>(
    alloc: Global,
    name: &N,
    kind: ReferenceType,
    all_defs: &AllDefs,
) -> Result<String, Fail> {
    let inside = internal_name(alloc, "N")?;
    match name.resolved_within(kind, Some(&inside), all_defs)? {
        Some(full) => Ok(full.to_string(alloc)?),
        None => {
            let reference = name.reference_within(alloc, kind, Some(&inside))?;
            told(alloc, reference.resolve(all_defs))
        }
    }
}

/// The action that a parent names in the namespace `N`, or why it is refused.
fn parent_named(alloc: Global, text: &str, all_defs: &AllDefs) -> Result<String, Fail> {
    let (ty, id) = text.rsplit_once("::").ok_or("no type")?;
    let inside = internal_name(alloc, "N")?;
    let parent = ActionParent {
        id: String::from_str(alloc, id)?,
        ty: raw(alloc, ty)?,
        loc: None,
    };
    told(alloc, parent.named_within(Some(&inside), all_defs))
}

/// What some entity types resolve to, with a blank behind each.
fn all_resolved(alloc: Global, text: &str, all_defs: &AllDefs) -> Result<String, Fail> {
    let mut references = Vec::new(alloc);
    for name in text.split(' ') {
        references.push(reference(alloc, name, ReferenceType::Entity)?)?;
    }
    let mut names = String::new(alloc);
    for name in &resolve_all(references, all_defs)? {
        write!(names, "{name} ")?;
    }
    Ok(names)
}

/// Just the reference to an entity type that is written in the namespace `N`.
fn entity(alloc: Global, written: &str) -> Result<HashSet<ConditionalName>, Fail> {
    let reference = reference(alloc, written, ReferenceType::Entity)?;
    Ok(HashSet::from_iter(alloc, [reference])?)
}

/// The entity types of the principal and of the resource of requests by one on one other.
fn of_one(alloc: Global, spec: &ValidatorApplySpec<EntityType>) -> Result<String, Fail> {
    let principal = spec.applicable_principal_types().next();
    let resource = spec.applicable_resource_types().next();
    match (principal, resource) {
        (Some(principal), Some(resource)) => Ok(format!(in alloc; "{principal} on {resource}")?),
        _ => Err(Fail::from("no requests")),
    }
}

/// What a copy of requests by a principal on itself comes to name, or why it is refused.
fn requested(alloc: Global, text: &str, all_defs: &AllDefs) -> Result<String, Fail> {
    let spec = ValidatorApplySpec::new(entity(alloc, text)?, entity(alloc, text)?);
    let copy = spec.clone()?;
    match copy.fully_qualify_type_references(alloc, all_defs) {
        Ok(spec) => of_one(alloc, &spec),
        Err(error) => Ok(format!(in alloc; "{error}")?),
    }
}

impl Asked {
    /// What is answered where some names are defined.
    fn answer_over(self, alloc: Global, text: &str, all_defs: &AllDefs) -> Result<String, Fail> {
        match self {
            Asked::Reference(kind) => told(alloc, reference(alloc, text, kind)?.resolve(all_defs)),
            Asked::Raw(kind) => found_within(alloc, &raw(alloc, text)?, kind, all_defs),
            Asked::Conditional(kind) => {
                found_within(alloc, &reference(alloc, text, kind)?, kind, all_defs)
            }
            Asked::Parent => parent_named(alloc, text, all_defs),
            Asked::Several => all_resolved(alloc, text, all_defs),
            Asked::Requests => requested(alloc, text, all_defs),
        }
    }
}

impl Question for Asked {
    fn answer(self, alloc: Global, text: &str) -> Result<String, Fail> {
        self.answer_over(alloc, text, &defined(alloc)?)
    }
}

/// Names at a position that permits common types.
const COMMON: Rows = &[
    ("T", "N::T"),
    ("Only", "no common type is declared as N::Only or Only"),
];

/// Names at a position that permits entity types.
const ENTITY: Rows = &[
    ("T", "T"),
    ("Both", "N::Both"),
    (
        "Action",
        "no entity type is declared as N::Action or Action",
    ),
];

/// Names at a position that permits both.
const COMMON_OR_ENTITY: Rows = &[
    ("T", "N::T"),
    ("Only", "Only"),
    ("__cedar::Foo", "__cedar::Foo"),
    ("M::Gone", "no type is declared as M::Gone"),
];

/// Types and ids of parents of actions.
const PARENTS: Rows = &[
    ("Action::a", "N::Action::\"a\""),
    ("Action::b", "Action::\"b\""),
    (
        "N::Action::b",
        "no action is declared as \"b\" of type N::Action",
    ),
];

/// Several entity types.
const SEVERAL: Rows = &[("Only T Both", "Only T N::Both ")];

/// Principals that are resources too.
const REQUESTS: Rows = &[
    ("Both", "N::Both on N::Both"),
    ("Only", "Only on Only"),
    ("U", "no entity type is declared as N::U or U"),
    ("__cedar::U", "the name __cedar::U is reserved"),
];

/// All rows.
const ROWS: &[(Asked, Rows)] = &[
    (Asked::Reference(ReferenceType::Common), COMMON),
    (Asked::Reference(ReferenceType::Entity), ENTITY),
    (
        Asked::Reference(ReferenceType::CommonOrEntity),
        COMMON_OR_ENTITY,
    ),
    (Asked::Raw(ReferenceType::Common), COMMON),
    (Asked::Raw(ReferenceType::Entity), ENTITY),
    (Asked::Raw(ReferenceType::CommonOrEntity), COMMON_OR_ENTITY),
    (Asked::Conditional(ReferenceType::Common), COMMON),
    (Asked::Conditional(ReferenceType::Entity), ENTITY),
    (
        Asked::Conditional(ReferenceType::CommonOrEntity),
        COMMON_OR_ENTITY,
    ),
    (Asked::Parent, PARENTS),
    (Asked::Several, SEVERAL),
    (Asked::Requests, REQUESTS),
];

#[test]
fn names_resolve_where_they_are_written(rt: HostRuntime) -> Result<(), Fail> {
    check(rt.alloc(), ROWS)
}

/// The type that refers to a name, of the kind that is said, at a place.
fn written<N: Drop>(kind: ReferenceType, name: N) -> Type<N> {
    let loc = Some(PLACE);
    match kind {
        ReferenceType::Common => Type::CommonTypeRef {
            type_name: name,
            loc,
        },
        ReferenceType::Entity => Type::Plain {
            ty: TypeVariant::Entity { name },
            loc,
        },
        ReferenceType::CommonOrEntity => Type::Plain {
            ty: TypeVariant::EntityOrCommon { type_name: name },
            loc,
        },
    }
}

/// Names of types that are written in the namespace `N`, each with what it may be of.
const WRITTEN: &[(&str, ReferenceType)] = &[
    ("T@1", ReferenceType::Common),
    ("T@1", ReferenceType::Entity),
    ("T@1", ReferenceType::CommonOrEntity),
    ("M::T@1", ReferenceType::Common),
    ("M::T@1", ReferenceType::Entity),
    ("M::T@1", ReferenceType::CommonOrEntity),
];

/// Whether the type that refers to a name is qualified as the name is that is qualified by itself.
fn is_by_its_name(alloc: Global, name: &str, kind: ReferenceType) -> Result<bool, Fail> {
    let inside = internal_name(alloc, "N")?;
    let by_name = written(kind, reference(alloc, name, kind)?);
    let ty = written(kind, raw(alloc, name)?);
    let qualified = ty.conditionally_qualify_type_references(alloc, Some(&inside));
    Ok(is_alike(alloc, qualified, &by_name))
}

#[test]
fn types_are_qualified_by_their_names(rt: HostRuntime) -> Result<(), Fail> {
    for &(name, kind) in WRITTEN {
        holds(is_by_its_name(rt.alloc(), name, kind)?, name)?;
    }
    Ok(())
}

#[test]
fn names_in_full_are_those_of_declarations(rt: HostRuntime) -> Result<(), Fail> {
    let alloc = rt.alloc();
    let inside = internal_name(alloc, "A::N")?;
    let full = raw(alloc, "T")?.qualify_with(alloc, Some(&inside))?;
    same("T", full.to_string(alloc)?.as_str(), "A::N::T")
}
