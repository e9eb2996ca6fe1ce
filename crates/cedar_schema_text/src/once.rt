//! Names that may stand but once.

ghost use Rattle.std.specs.Prelude.{◌≡◌, [], List, map, Contains, IfOk, IfErr, OnOk};
ghost use Rattle.cedar_schema_grammar.specs.Plain.{name_of};
ghost use Rattle.cedar_schema_text.specs.Faults.{Fault, IsAmong, repeats, twice};
ghost use Rattle.cedar_schema_text.specs.Named.{named};
ghost use Rattle.cedar_schema_text.specs.declared.fault.Repeated.TheVariants as repeated;

use crate::fault::{MeaningFault, Repeated, Twice};
use cedar_ast::{Loc, M};
use cedar_schema_grammar::Name;
use std::alloc::Global;
use std::collections::BTreeMap;

/// A name and its place.
#[derive(Clone, Copy)]
pub(crate) struct Named<'a> {
    /// The name.
    pub(crate) text: &'a str,
    /// Where it stands.
    pub(crate) loc: Loc,
}

/// The refusal of a name that stands first at one place, and again at another.
fn again(alloc: Global, what: Repeated, name: Named<'_>, first: Loc) -> MeaningFault
    ensures { (faults : List Fault)
        → Contains faults (twice what name.entry.text.now first name.entry.loc)
        → IsAmong faults result }
{
    match String::from_str(alloc, name.text) {
        Ok(text) => MeaningFault::Twice(Twice {
            what,
            name: text,
            first,
            second: name.loc,
        }),
        Err(_) => MeaningFault::Memory,
    }
}

/// Refuses names of which one stands twice.
pub(crate) fn check_once(
    alloc: Global,
    what: Repeated,
    names: &[Named<'_>],
) -> Result<(), MeaningFault>
    ensures none { OnOk result (repeats what (map named names.now) ≡ []) }
    ensures fault { IfErr result (IsAmong (repeats what (map named names.now))) }
{
    if names.len() < 2 {
        return Ok(());
    }
    let mut places = BTreeMap::new(alloc);
    for name in names {
        if let Some(first) = places.insert(name.text, name.loc)? {
            return Err(again(alloc, what, *name, first));
        }
    }
    Ok(())
}

/// Names with their places.
fn names_of<'a>(alloc: Global, names: &'a [Name]) -> M<Vec<Named<'a>>>
    ensures { IfOk result (λ all. map named all.items ≡ map name_of names.now) }
{
    let mut all = Vec::with_capacity(alloc, names.len())?;
    for name in names {
        all.push(Named {
            text: name.text.as_str(),
            loc: name.loc,
        })?;
    }
    Ok(all)
}

/// Refuses names of which one stands twice.
pub(crate) fn check_names(alloc: Global, what: Repeated, names: &[Name]) -> Result<(), MeaningFault>
    ensures none { OnOk result (repeats what (map name_of names.now) ≡ []) }
    ensures fault { IfErr result (IsAmong (repeats what (map name_of names.now))) }
{
    check_once(alloc, what, &names_of(alloc, names)?)
}

/// Refuses annotations of which one stands twice.
pub(crate) fn check_annotations(alloc: Global, names: &[Name]) -> Result<(), MeaningFault>
    ensures none { OnOk result (repeats repeated.Annotation (map name_of names.now) ≡ []) }
    ensures fault { IfErr result (IsAmong (repeats repeated.Annotation (map name_of names.now))) }
{
    check_names(alloc, Repeated::Annotation, names)
}
