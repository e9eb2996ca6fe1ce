//! What JSON values describe that are read by reference: the parts of a declaration.

ghost use Rattle.std.specs.Prelude.{◌≡◌, List, Option, Some, None, map, option_and_then, option_map};
ghost use Rattle.json.specs.Find.{as_array, get};
ghost use Rattle.json.specs.Json.{Json, array};
ghost use Rattle.json.specs.Value.{items_view, value_view};
ghost use Rattle.cedar_json.specs.Words.{IsReadFrom, IsReadWhere, all_of, field_or, optional, unless_null};

use crate::fault::{Expected, Fault, FaultKind};
use crate::fields::lack;
use crate::gathering::push_read;
use crate::place_table::Cursor;
use json::Value;
use std::alloc::Global;

/// What JSON values describe of a kind.
///
/// The ghost members are what contracts speak of: the plain data, that of a JSON value, and that of
/// what is read.
pub(crate) trait Described: Sized {
    ghost Plain: { Type 0 };

    ghost describes: { Json → Option Plain };

    ghost shown: { Self → Plain };
}

/// What a JSON value describes.
pub(crate) trait FromJson: Described {
    /// What the value describes.
    fn read(alloc: Global, value: &Value<'_>, cursor: Cursor<'_>) -> Result<Self, Fault>
        ensures { IsReadFrom (value_view value.now)
            (Self.describes (value_view value.now)) Self.shown result };
}

/// What some items describe.
fn read_items<T: FromJson + Drop>(
    alloc: Global,
    items: &Vec<Value<'_>>,
    cursor: Cursor<'_>,
) -> Result<Vec<T>, Fault>
    ensures { IsReadFrom (array (items_view items.now.items))
        (all_of T.describes (items_view items.now.items)) (λ all. map T.shown all.items) result }
{
    let mut all = Vec::with_capacity(alloc, items.len())?;
    let mut at = cursor.first();
    for (index, item) in items.iter().enumerate() {
        push_read(&mut all, index, T::read(alloc, item, at))?;
        at = at.next();
    }
    Ok(all)
}

impl<T: Described> Described for Vec<T> {
    ghost Plain = { List T.Plain };

    ghost describes = { λ j. option_and_then (all_of T.describes) (as_array j) };

    ghost shown = { λ all. map T.shown all.items };
}

impl<T: FromJson + Drop> FromJson for Vec<T> {
    fn read(alloc: Global, value: &Value<'_>, cursor: Cursor<'_>) -> Result<Vec<T>, Fault> {
        match value {
            Value::Array(items) => read_items::<T>(alloc, items, cursor),
            _ => Err(Fault::here(alloc, FaultKind::Wants(Expected::Array))),
        }
    }
}

impl<T: Described> Described for Option<T> {
    ghost Plain = { Option T.Plain };

    ghost describes = { λ j. option_map Some (T.describes j) };

    ghost shown = { option_map T.shown };
}

impl<T: FromJson + Drop> FromJson for Option<T> {
    /// What the value describes, where absence describes nothing.
    fn read(alloc: Global, value: &Value<'_>, cursor: Cursor<'_>) -> Result<Option<T>, Fault> {
        Ok(Some(T::read(alloc, value, cursor)?))
    }
}

/// What a field describes that holds a value.
fn read_held<T: FromJson>(
    alloc: Global,
    held: &Value<'_>,
    name: &'static str,
    cursor: Cursor<'_>,
) -> Result<T, Fault>
    ensures { IsReadWhere (λ j. get name.now j ≡ Some (value_view held.now))
        (T.describes (value_view held.now)) T.shown result }
{
    match T::read(alloc, held, cursor) {
        Ok(it) => Ok(it),
        Err(fault) => Err(fault.within(name)),
    }
}

/// What a field describes.
pub(crate) fn described_field<T: FromJson>(
    alloc: Global,
    value: &Value<'_>,
    name: &'static str,
    cursor: Cursor<'_>,
) -> Result<T, Fault>
    ensures { IsReadFrom (value_view value.now)
        (option_and_then T.describes (get name.now (value_view value.now))) T.shown result }
{
    match value.get(name) {
        Some(held) => read_held(alloc, held, name, cursor.field(value, name)),
        None => Err(lack(alloc, value, name)),
    }
}

/// What a field describes that may be absent, with what its absence means.
pub(crate) fn field_or_else<T: FromJson + Drop>(
    alloc: Global,
    value: &Value<'_>,
    name: &'static str,
    absent: T,
    cursor: Cursor<'_>,
) -> Result<T, Fault>
    ensures { IsReadFrom (value_view value.now)
        (field_or (T.shown absent) T.describes (get name.now (value_view value.now)))
        T.shown result }
{
    match value.get(name) {
        None => Ok(absent),
        Some(_) => described_field(alloc, value, name, cursor),
    }
}

/// What a field holds, where `null` stands for absence.
pub(crate) fn written<'v, 'a>(value: &'v Value<'a>, name: &str) -> Option<&'v Value<'a>>
    ensures { option_map (λ held. value_view held.now) result
        ≡ unless_null (get name.now (value_view value.now)) }
{
    match value.get(name) {
        Some(Value::Null) => None,
        held => held,
    }
}

/// What a field describes that may be absent or `null`, or None there.
pub(crate) fn optional_field<T: FromJson + Drop>(
    alloc: Global,
    value: &Value<'_>,
    name: &'static str,
    cursor: Cursor<'_>,
) -> Result<Option<T>, Fault>
    ensures { IsReadWhere (λ j. get name.now j ≡ get name.now (value_view value.now))
        (optional T.describes (get name.now (value_view value.now))) (option_map T.shown) result }
{
    match written(value, name) {
        None => Ok(None),
        Some(held) => read_held(alloc, held, name, cursor.field(value, name)),
    }
}
