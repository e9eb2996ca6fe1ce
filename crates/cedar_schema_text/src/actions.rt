//! Actions.

ghost use Rattle.std.specs.Prelude.{◌≡◌, [], map, option_map, IfOk, IfErr, OnOk};
ghost use Rattle.std.specs.List.{flat_map};
ghost use Rattle.cedar_schema_grammar.specs.Plain.{applies_of, parent_of, part_of, path_of, says_of, type_of};
ghost use Rattle.cedar_schema_text.specs.Faults.{IsAmong, if_there, parent_faults, part_faults, part_name, repeats, requests_faults, type_faults, word_of};
ghost use Rattle.cedar_schema_text.specs.Meaning.{context_meant, context_of, first_said, names_meant, parent_meant, principals_of, requests_meant, resources_of};
ghost use Rattle.cedar_schema_text.specs.Named.{named};
ghost use Rattle.cedar_schema_text.specs.Shown.{name_shown, parent_shown, requests_shown, type_shown};
ghost use Rattle.cedar_schema_text.specs.declared.fault.Repeated.TheVariants as repeated;

use crate::fault::{MeaningFault, Missing, Repeated};
use crate::names::{reference, references};
use crate::once::{Named, check_once};
use crate::types::{context, no_attributes};
use cedar_ast::{Loc, M};
use cedar_schema_ast::json_schema::{ActionEntityUID, ApplySpec, AttributesOrContext, RawName};
use cedar_schema_grammar as text;
use std::alloc::Global;

/// The word that begins a part.
fn word(says: &text::Says) -> &'static str
    ensures { result.now ≡ word_of (says_of says.now) }
{
    match says {
        text::Says::Principals(_) => "principal",
        text::Says::Resources(_) => "resource",
        text::Says::Context(_) => "context",
    }
}

/// The words of some parts, with their places.
fn part_names<'a>(alloc: Global, parts: &'a [text::Part]) -> M<Vec<Named<'a>>>
    ensures { IfOk result (λ all. map named all.items ≡ map part_name (map part_of parts.now)) }
{
    let mut all = Vec::with_capacity(alloc, parts.len())?;
    for part in parts {
        all.push(Named {
            text: word(&part.says),
            loc: part.loc,
        })?;
    }
    Ok(all)
}

/// What the first part for principals says.
fn principals(parts: &[text::Part]) -> Option<&Vec<text::Path>>
    ensures { option_map (λ paths. map path_of paths.now.items) result
        ≡ first_said principals_of (map part_of parts.now) }
{
    for part in parts {
        if let text::Says::Principals(paths) = &part.says {
            return Some(paths);
        }
    }
    None
}

/// What the first part for resources says.
fn resources(parts: &[text::Part]) -> Option<&Vec<text::Path>>
    ensures { option_map (λ paths. map path_of paths.now.items) result
        ≡ first_said resources_of (map part_of parts.now) }
{
    for part in parts {
        if let text::Says::Resources(paths) = &part.says {
            return Some(paths);
        }
    }
    None
}

/// What the first part for a context says.
fn said_context(parts: &[text::Part]) -> Option<&text::Type>
    ensures { option_map (λ ty. type_of ty.now) result
        ≡ first_said context_of (map part_of parts.now) }
{
    for part in parts {
        if let text::Says::Context(ty) = &part.says {
            return Some(ty);
        }
    }
    None
}

/// The entity types that a part says, which an `appliesTo` at this place must not lack.
fn said(
    alloc: Global,
    which: Missing,
    loc: Loc,
    paths: Option<&Vec<text::Path>>,
) -> Result<Vec<RawName>, MeaningFault>
    ensures meant { IfOk result (λ all. map name_shown all.items
        ≡ names_meant (option_map (λ v. map path_of v.now.items) paths.entry)) }
    ensures none { OnOk result
        (part_faults which loc (option_map (λ v. map path_of v.now.items) paths.entry) ≡ []) }
    ensures fault { IfErr result
        (IsAmong (part_faults which loc (option_map (λ v. map path_of v.now.items) paths.entry))) }
{
    match paths {
        Some(paths) => references(alloc, paths),
        None => Err(MeaningFault::Missing(which, loc)),
    }
}

/// The context that is written, or the empty one.
fn context_or_none(
    alloc: Global,
    ty: Option<&text::Type>,
) -> Result<AttributesOrContext<RawName>, MeaningFault>
    ensures meant { IfOk result (λ it.
        type_shown it.0 ≡ context_meant (option_map (λ t. type_of t.now) ty.entry)) }
    ensures none { OnOk result
        (if_there type_faults (option_map (λ t. type_of t.now) ty.entry) ≡ []) }
    ensures fault { IfErr result
        (IsAmong (if_there type_faults (option_map (λ t. type_of t.now) ty.entry))) }
{
    match ty {
        Some(ty) => Ok(AttributesOrContext(context(alloc, ty)?)),
        None => Ok(no_attributes(alloc)),
    }
}

/// Refuses parts of which one stands twice.
fn check_parts(alloc: Global, parts: &[text::Part]) -> Result<(), MeaningFault>
    ensures none { OnOk result
        (repeats repeated.Part (map part_name (map part_of parts.now)) ≡ []) }
    ensures fault { IfErr result
        (IsAmong (repeats repeated.Part (map part_name (map part_of parts.now)))) }
{
    check_once(alloc, Repeated::Part, &part_names(alloc, parts)?)
}

/// The requests that some parts say, of an `appliesTo` at this place.
fn requests_by(
    alloc: Global,
    parts: &[text::Part],
    loc: Loc,
) -> Result<ApplySpec<RawName>, MeaningFault>
    ensures meant { IfOk result (λ it. requests_shown it
        ≡ requests_meant (record { parts = map part_of parts.now; loc = loc })) }
    ensures none { OnOk result
        (requests_faults (record { parts = map part_of parts.now; loc = loc }) ≡ []) }
    ensures fault { IfErr result
        (IsAmong (requests_faults (record { parts = map part_of parts.now; loc = loc }))) }
{
    check_parts(alloc, parts)?;
    let principal_types = said(alloc, Missing::Principal, loc, principals(parts))?;
    let resource_types = said(alloc, Missing::Resource, loc, resources(parts))?;
    Ok(ApplySpec {
        principal_types,
        resource_types,
        context: context_or_none(alloc, said_context(parts))?,
    })
}

/// The requests that an action is for.
pub(crate) fn requests(
    alloc: Global,
    applies: &text::Applies,
) -> Result<ApplySpec<RawName>, MeaningFault>
    ensures meant { IfOk result (λ it.
        requests_shown it ≡ requests_meant (applies_of applies.now)) }
    ensures none { OnOk result (requests_faults (applies_of applies.now) ≡ []) }
    ensures fault { IfErr result (IsAmong (requests_faults (applies_of applies.now))) }
{
    requests_by(alloc, &applies.parts, applies.loc)
}

/// The action that a parent is.
fn parent(alloc: Global, parent: &text::Parent) -> Result<ActionEntityUID<RawName>, MeaningFault>
    ensures meant { IfOk result (λ it. parent_shown it ≡ parent_meant (parent_of parent.now)) }
    ensures none { OnOk result (parent_faults (parent_of parent.now) ≡ []) }
    ensures fault { IfErr result (IsAmong (parent_faults (parent_of parent.now))) }
{
    let id = String::from_str(alloc, parent.id.text.as_str())?;
    let ty = match &parent.ty {
        Some(path) => Some(reference(alloc, path)?),
        None => None,
    };
    Ok(ActionEntityUID {
        id,
        ty,
        loc: Some(parent.loc),
    })
}

/// The actions that some parents are.
pub(crate) fn parents(
    alloc: Global,
    written: &[text::Parent],
) -> Result<Vec<ActionEntityUID<RawName>>, MeaningFault>
    ensures meant { IfOk result (λ all.
        map parent_shown all.items ≡ map parent_meant (map parent_of written.now)) }
    ensures none { OnOk result (flat_map parent_faults (map parent_of written.now) ≡ []) }
    ensures fault { IfErr result
        (IsAmong (flat_map parent_faults (map parent_of written.now))) }
{
    let mut groups = Vec::with_capacity(alloc, written.len())?;
    for one in written {
        groups.push(parent(alloc, one)?)?;
    }
    Ok(groups)
}
