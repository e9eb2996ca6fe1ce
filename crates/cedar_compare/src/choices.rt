//! The ids that entities of a type may have.

ghost use Rattle.std.specs.Prelude.{◌≡◌, ◌↔◌, ◌+◌, ◌≤◌, Contains, IfOk, IsTrue, None, length, map};
ghost use Rattle.std.specs.Option.{option_copied, option_map};
ghost use Rattle.cedar_compare.specs.Words.{IsIdOutside, MayHave, SameItems, Text, choice_texts, eid_text, kind_choices, plain_kind};

use cedar_ast::{Eid, M, NonEmpty};
use cedar_schema::ValidatorEntityTypeKind;
use std::alloc::Global;
use std::collections::BTreeSet;

/// The choices of an enumerated entity type, and of others none.
pub(crate) fn choices_of(kind: &ValidatorEntityTypeKind) -> Option<&NonEmpty<Eid>>
    ensures { option_map choice_texts (option_copied result) ≡ kind_choices (plain_kind kind.now) }
{
    match kind {
        ValidatorEntityTypeKind::Enum(choices) => Some(choices),
        ValidatorEntityTypeKind::Standard(_) => None,
        ValidatorEntityTypeKind::External => None,
    }
}

/// Whether an id is one of some choices.
pub(crate) fn has_choice(choices: &NonEmpty<Eid>, eid: &Eid) -> bool
    ensures { IsTrue result ↔ Contains (choice_texts choices.now) (eid_text eid.now) }
{
    choices.head == *eid || choices.tail.contains(eid)
}

/// Some choices as a set, in which an id is found without going through all of them.
pub(crate) fn choice_set(alloc: Global, choices: &NonEmpty<Eid>) -> M<BTreeSet<Eid>>
    ensures { IfOk result (λ set. SameItems (map eid_text set.keys) (choice_texts choices.now)) }
{
    let mut eids = Vec::new(alloc);
    eids.push(choices.head.clone()?)?;
    for eid in &choices.tail {
        eids.push(eid.clone()?)?;
    }
    Ok(BTreeSet::from_iter(alloc, eids)?)
}

/// Whether an id is one of a set.
pub(crate) fn is_among(eids: &BTreeSet<Eid>, eid: &Eid) -> bool
    ensures { IsTrue result ↔ Contains (map eid_text eids.now.keys) (eid_text eid.now) }
{
    eids.contains(eid)
}

/// The first of some choices that isn't one of others, if there is one.
fn other_choice<'a>(
    alloc: Global,
    choices: &'a NonEmpty<Eid>,
    others: &NonEmpty<Eid>,
) -> M<Option<&'a Eid>>
    ensures { IfOk result (λ found. IsIdOutside (Some (choice_texts choices.now))
        (Some (choice_texts others.now)) (option_map eid_text (option_copied found))) }
{
    let known = choice_set(alloc, others)?;
    if !is_among(&known, &choices.head) {
        return Ok(Some(&choices.head));
    }
    for eid in &choices.tail {
        if !is_among(&known, eid) {
            return Ok(Some(eid));
        }
    }
    Ok(None)
}

/// The length of the longest of some choices.
pub(crate) fn longest_choice(choices: &NonEmpty<Eid>) -> usize
    ensures { (id : Text) → Contains (choice_texts choices.now) id → length id ≤ result }
{
    let mut longest = choices.head.as_str().len();
    for eid in &choices.tail {
        longest = longest.max(eid.as_str().len());
    }
    longest
}

/// An id of one `x` more than a number says.
pub(crate) fn id_of_length(alloc: Global, count: usize) -> M<Eid>
    ensures { IfOk result (λ eid. length (eid_text eid) ≡ count + 1) }
{
    let mut text = String::new(alloc);
    for _ in 0..count {
        text.push('x')?;
    }
    text.push('x')?;
    Ok(Eid(text))
}

/// An id that an entity may have, where these are the choices, if there are some.
pub(crate) fn some_id(alloc: Global, choices: Option<&NonEmpty<Eid>>) -> M<Eid>
    ensures { IfOk result (λ eid.
        MayHave (option_map choice_texts (option_copied choices.entry)) (eid_text eid)) }
{
    match choices {
        Some(choices) => choices.head.clone(),
        None => id_of_length(alloc, 0),
    }
}

/// An id that an entity may have where the one are the choices and may not have where the others
/// are, if there is one.
pub(crate) fn id_outside(
    alloc: Global,
    old: Option<&NonEmpty<Eid>>,
    new: Option<&NonEmpty<Eid>>,
) -> M<Option<Eid>>
    ensures { IfOk result (λ found.
        IsIdOutside (option_map choice_texts (option_copied old.entry))
        (option_map choice_texts (option_copied new.entry)) (option_map eid_text found)) }
{
    let Some(new) = new else {
        return Ok(None);
    };
    match old {
        None => Ok(Some(id_of_length(alloc, longest_choice(new))?)),
        Some(old) => match other_choice(alloc, old, new)? {
            Some(eid) => Ok(Some(eid.clone()?)),
            None => Ok(None),
        },
    }
}
