//! What JSON values describe that go while they are read: where much is declared, the value of a
//! text and what it describes don't take memory at one time.

ghost use Rattle.std.specs.Prelude.{◌≡◌, ◌≢◌, ◌⊎◌, [], List, Option, Some, None, false, MatchResult, map, option_and_then, option_map};
ghost use Rattle.std.specs.Str.{bytes_eq};
ghost use Rattle.std.specs.declared.cmp.Ordering.{Ordering};
ghost use Rattle.json.specs.Find.{get, get_member};
ghost use Rattle.json.specs.Json.{Json, object};
ghost use Rattle.json.specs.Value.{members_view, value_view};
ghost use Rattle.cedar_json.specs.Words.{IsEntryPut, IsReadFrom, IsReadWhere, IsTrueOf, Text, entries_in, entries_of, field_or, member_at, optional};

use crate::fault::{Expected, Fault, FaultKind, Step};
use crate::from_json::{Described, written};
use crate::map_builder::MapBuilder;
use crate::place_table::Cursor;
use json::Value;
use std::alloc::Global;
use std::collections::BTreeMap;
use std::mem;

/// What a JSON value describes that goes while it is read.
pub(crate) trait FromJsonOwned: Described {
    /// What the value describes, of which anything may be left.
    fn take(alloc: Global, value: &mut Value<'_>, cursor: Cursor<'_>) -> Result<Self, Fault>
        ensures { IsReadFrom (value_view value.old)
            (Self.describes (value_view value.old)) Self.shown result };
}

/// What a key of an object stands for, under which a map holds what the member describes.
///
/// The ghost members are the plain data of keys with their order, what a text stands for, and what
/// a key does.
pub(crate) trait Key: Ord {
    ghost PlainKey: { Type 0 };

    ghost order: { PlainKey → PlainKey → Ordering };

    ghost key_of: { Text → Option PlainKey };

    ghost shown_key: { Self → PlainKey };

    /// What the key of the member at an index stands for.
    fn read_key(alloc: Global, key: &str, index: usize, cursor: Cursor<'_>) -> Result<Self, Fault>
    where
        Self: Sized,
        ensures { MatchResult result
            (λ it. key_of key.now ≡ Some (shown_key it))
            (λ fault. (fault ≢ Fault.Memory → key_of key.now ≡ None)
            × ((j held : Json) → member_at index j ≡ Some (key.now, held) → IsTrueOf fault j)) };

    ghost same_order: { (a b : Self) → Self.cmp a b ≡ order (shown_key a) (shown_key b) };
}

/// What a value describes, which is gone then.
pub(crate) fn take_whole<T: FromJsonOwned>(
    alloc: Global,
    mut value: Value<'_>,
    cursor: Cursor<'_>,
) -> Result<T, Fault>
    ensures { IsReadFrom (value_view value.entry)
        (T.describes (value_view value.entry)) T.shown result }
{
    T::take(alloc, &mut value, cursor)
}

/// Puts what the member at an index describes to the others, under what its key stands for.
fn take_entry<K: Key + Drop, T: FromJsonOwned + Drop>(
    alloc: Global,
    index: usize,
    member: (&str, Value<'_>),
    cursor: Cursor<'_>,
    all: &mut MapBuilder<K, T>,
) -> Result<(), Fault>
    ensures { MatchResult result
        (λ _. IsEntryPut K.cmp K.shown_key T.shown (K.key_of member.entry.0.now)
        (T.describes (value_view member.entry.1)) all.old all.new)
        (λ fault. (fault ≢ Fault.Memory → (K.key_of member.entry.0.now ≡ None)
        ⊎ (T.describes (value_view member.entry.1) ≡ None))
        × ((j : Json) → member_at index j
        ≡ Some (member.entry.0.now, value_view member.entry.1)
        → IsTrueOf fault j)) }
{
    let (name, value) = member;
    let key = K::read_key(alloc, name, index, cursor)?;
    match take_whole(alloc, value, cursor) {
        Ok(it) => Ok(all.put(key, it)?),
        Err(fault) => Err(fault.behind(Step::Member(index))),
    }
}

/// What some members describe.
fn take_entries<K: Key + Drop, T: FromJsonOwned + Drop>(
    alloc: Global,
    members: Vec<(&str, Value<'_>)>,
    cursor: Cursor<'_>,
) -> Result<BTreeMap<K, T>, Fault>
    ensures { IsReadFrom (object (members_view members.entry.items))
        (entries_of K.order K.key_of T.describes (members_view members.entry.items) [])
        (λ all. map (λ entry. (K.shown_key entry.0, T.shown entry.1)) all.entries) result }
{
    let mut all = MapBuilder::new(alloc);
    let mut at = cursor.first();
    for (index, member) in members.into_iter().enumerate() {
        take_entry::<K, T>(alloc, index, member, at, &mut all)?;
        at = at.next();
    }
    all.finish()
}

impl<K: Key, T: Described> Described for BTreeMap<K, T> {
    ghost Plain = { List (K.PlainKey × T.Plain) };

    ghost describes = { entries_in K.order K.key_of T.describes };

    ghost shown = { λ all. map (λ entry. (K.shown_key entry.0, T.shown entry.1)) all.entries };
}

impl<K: Key + Drop, T: FromJsonOwned + Drop> FromJsonOwned for BTreeMap<K, T> {
    fn take(
        alloc: Global,
        value: &mut Value<'_>,
        cursor: Cursor<'_>,
    ) -> Result<BTreeMap<K, T>, Fault> {
        match mem::replace(value, Value::Null) {
            Value::Object(members) => take_entries::<K, T>(alloc, members, cursor),
            _ => Err(Fault::here(alloc, FaultKind::Wants(Expected::Object))),
        }
    }
}

/// Takes what the members of a name hold, which hold `null` from then on: that of the last of them.
fn take_member<'a>(members: &mut Vec<(&'a str, Value<'a>)>, name: &str) -> Option<Value<'a>>
    ensures held { option_map value_view result
        ≡ get_member name.now (members_view members.old.items) }
    ensures others { (other : Text) → bytes_eq name.now other ≡ false
        → get_member other (members_view members.new.items)
        ≡ get_member other (members_view members.old.items) }
{
    let mut held = None;
    for member in members.iter_mut() {
        if member.0 != name {
            continue;
        }
        held = Some(mem::replace(&mut member.1, Value::Null));
    }
    held
}

/// Takes what a field holds, which holds `null` from then on.
fn take_held<'a>(value: &mut Value<'a>, name: &str) -> Option<Value<'a>>
    ensures held { option_map value_view result ≡ get name.now (value_view value.old) }
    ensures others { (other : Text) → bytes_eq name.now other ≡ false
        → get other (value_view value.new) ≡ get other (value_view value.old) }
{
    match mem::replace(value, Value::Null) {
        Value::Object(mut members) => {
            let held = take_member(&mut members, name);
            *value = Value::Object(members);
            held
        }
        other => {
            *value = other;
            None
        }
    }
}

/// What a field describes, which is taken out of its object.
pub(crate) fn taken_field<T: FromJsonOwned + Drop>(
    alloc: Global,
    value: &mut Value<'_>,
    name: &'static str,
    cursor: Cursor<'_>,
) -> Result<T, Fault>
    ensures value { IsReadWhere (λ j. get name.now j ≡ get name.now (value_view value.old))
        (option_and_then T.describes (get name.now (value_view value.old))) T.shown result }
    ensures others { (other : Text) → bytes_eq name.now other ≡ false
        → get other (value_view value.new) ≡ get other (value_view value.old) }
{
    let at = cursor.field(value, name);
    match take_held(value, name) {
        Some(held) => match take_whole(alloc, held, at) {
            Ok(it) => Ok(it),
            Err(fault) => Err(fault.within(name)),
        },
        None => Err(Fault::here(alloc, FaultKind::Missing(name))),
    }
}

/// The same of a field that may be absent, with what its absence means.
pub(crate) fn taken_or_else<T: FromJsonOwned + Drop>(
    alloc: Global,
    value: &mut Value<'_>,
    name: &'static str,
    absent: T,
    cursor: Cursor<'_>,
) -> Result<T, Fault>
    ensures value { IsReadWhere (λ j. get name.now j ≡ get name.now (value_view value.old))
        (field_or (T.shown absent) T.describes (get name.now (value_view value.old)))
        T.shown result }
    ensures others { (other : Text) → bytes_eq name.now other ≡ false
        → get other (value_view value.new) ≡ get other (value_view value.old) }
{
    match value.get(name) {
        None => Ok(absent),
        Some(_) => taken_field(alloc, value, name, cursor),
    }
}

/// The same of a field that may be absent or `null`, or None there.
pub(crate) fn taken_unless_null<T: FromJsonOwned + Drop>(
    alloc: Global,
    value: &mut Value<'_>,
    name: &'static str,
    cursor: Cursor<'_>,
) -> Result<Option<T>, Fault>
    ensures value { IsReadWhere (λ j. get name.now j ≡ get name.now (value_view value.old))
        (optional T.describes (get name.now (value_view value.old))) (option_map T.shown) result }
    ensures others { (other : Text) → bytes_eq name.now other ≡ false
        → get other (value_view value.new) ≡ get other (value_view value.old) }
{
    match written(value, name) {
        None => Ok(None),
        Some(_) => match taken_field(alloc, value, name, cursor) {
            Ok(it) => Ok(Some(it)),
            Err(fault) => Err(fault),
        },
    }
}
