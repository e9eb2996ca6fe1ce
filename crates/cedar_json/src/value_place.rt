//! The place of a value in a text, as steps, as a JSON pointer and in bytes.

ghost use Rattle.std.specs.Prelude.{◌≡◌, IfOk};

use crate::fault::{FaultKind, Step};
use crate::place_table::Cursor;
use cedar_ast::{Loc, M, Memory};
use json::Value;
use std::alloc::Global;

/// The place of a value in a text. That the pointer and the location are those of the steps is
/// tested and not proved.
#[derive(Debug, Drop)]
pub struct Place {
    /// The steps to the value from that of the whole text, the last of them first.
    pub steps: Vec<Step>,
    /// The same as a JSON pointer (RFC 6901).
    pub pointer: String,
    /// The bytes of the value; where a key is at fault, those of the key with its quotes.
    pub loc: Option<Loc>,
}

/// The member at an index of a value.
fn member_at<'v, 'a>(value: &'v Value<'a>, index: usize) -> Option<&'v (&'a str, Value<'a>)> {
    match value {
        Value::Object(members) => members.get(index),
        _ => None,
    }
}

/// A JSON pointer that is being written. Where memory runs out, that is remembered, and told at the
/// end.
#[derive(Drop)]
struct Pointer {
    /// What is written so far.
    written: String,
    /// Whether memory ran out.
    is_refused: bool,
}

impl Pointer {
    /// Adds a character.
    fn push(&mut self, character: char) {
        self.is_refused |= self.written.push(character).is_err();
    }

    /// Adds the escape that ends in a character.
    fn push_escape(&mut self, last: char) {
        self.push('~');
        self.push(last);
    }

    /// Adds the part that leads to the value under a key, with `~0` for `~` and `~1` for `/`.
    fn push_key(&mut self, key: &str) {
        self.push('/');
        for character in key.chars() {
            match character {
                '~' => self.push_escape('0'),
                '/' => self.push_escape('1'),
                _ => self.push(character),
            }
        }
    }

    /// Adds the part that leads to the item at an index.
    fn push_index(&mut self, index: usize) {
        self.push('/');
        self.is_refused |= self.written.write(index).is_err();
    }

    /// Adds the part that is a step from a value, and gives the value and the cursor to which it
    /// leads.
    fn push_step<'v, 'a, 'p>(
        &mut self,
        value: &'v Value<'a>,
        cursor: Cursor<'p>,
        step: Step,
    ) -> Option<(&'v Value<'a>, Cursor<'p>)> {
        match step {
            Step::Field(name) => {
                self.push_key(name);
                Some((value.get(name)?, cursor.field(value, name)))
            }
            Step::Member(index) => {
                let member = member_at(value, index)?;
                self.push_key(member.0);
                Some((&member.1, cursor.child(index)))
            }
            Step::Item(index) => {
                self.push_index(index);
                Some((value.at(index)?, cursor.child(index)))
            }
        }
    }
}

/// The index of the member whose key a fault is one of.
pub(crate) fn faulty_key(kind: FaultKind) -> Option<usize> {
    match kind {
        FaultKind::UnknownField(_, index)
        | FaultKind::KeyIsNoId(index)
        | FaultKind::KeyIsReserved(index)
        | FaultKind::KeyIsTypeWord(index)
        | FaultKind::KeyIsNoName(index)
        | FaultKind::KeyIsReservedName(index) => Some(index),
        FaultKind::Missing(_)
        | FaultKind::Wants(_)
        | FaultKind::NoName
        | FaultKind::NoId
        | FaultKind::ReservedId
        | FaultKind::NoChoices
        | FaultKind::ReservedName
        | FaultKind::NoLong => None,
    }
}

/// Writes the JSON pointer that steps are from a value, the last of them first, and gives the
/// cursor at their end.
fn follow<'p>(
    pointer: &mut Pointer,
    value: &Value<'_>,
    cursor: Cursor<'p>,
    steps: &[Step],
) -> Cursor<'p> {
    let [rest @ .., step] = steps else {
        return cursor;
    };
    match pointer.push_step(value, cursor, *step) {
        Some((inner, at)) => follow(pointer, inner, at, rest),
        None => cursor,
    }
}

/// The place to which steps lead from the value of a text, the last of them first; located at the
/// key of a member, if an index is given.
pub(crate) fn place_at(
    alloc: Global,
    value: &Value<'_>,
    cursor: Cursor<'_>,
    steps: Vec<Step>,
    key: Option<usize>,
) -> M<Place>
    ensures { IfOk result (λ place. place.steps ≡ steps) }
{
    let mut pointer = Pointer {
        written: String::new(alloc),
        is_refused: false,
    };
    let at = follow(&mut pointer, value, cursor, steps.as_slice());
    if pointer.is_refused {
        return Err(Memory);
    }
    let loc = match key {
        Some(index) => at.child(index).key_loc(),
        None => at.loc(),
    };
    Ok(Place {
        steps,
        pointer: pointer.written,
        loc,
    })
}
