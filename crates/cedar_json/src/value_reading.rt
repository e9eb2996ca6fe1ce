//! Reading values of Cedar.

ghost use Rattle.std.specs.Prelude.{◌≡◌, [], Some, None, MatchResult, codes, option_map, option_and_then};
ghost use Rattle.json.specs.Find.{as_number};
ghost use Rattle.json.specs.Json.{array, object};
ghost use Rattle.json.specs.Value.{items_view, members_view, value_view};
ghost use Rattle.cedar_json.specs.Words.{IsReadFrom, call_in, call_value, has_only, if_so, known_fields, no_tree, pairs_of, plain_name, plain_name_in, record_of_pairs, set_value, sole_held, text_held, tree, tree_of, uid_in, uid_of, value_of, values_of, whole_number};

use crate::fault::{Expected, Fault, FaultKind, Row};
use crate::fields::{check_fields, field, text_field};
use crate::gathering::{push_read, put_read};
use crate::spelling::read_plain_name;
use cedar_ast::{Eid, EntityType, EntityUID, Name, RestrictedExpr};
use json::Value;
use std::alloc::Global;
use std::collections::BTreeMap;

/// The whole number of 64 bits that a number is.
fn whole_number(value: &Value<'_>) -> Option<i64>
    ensures { result ≡ option_and_then whole_number (as_number (value_view value.now)) }
{
    let text = value.as_number()?;
    if text == "-0" {
        return None;
    }
    value.as_i64()
}

/// What the one member of an object holds, where its key is the name.
fn sole<'v, 'a>(members: &'v Vec<(&'a str, Value<'a>)>, name: &str) -> Option<&'v Value<'a>>
    ensures { option_map (λ held. value_view held.now) result
        ≡ sole_held name.now (members_view members.now.items) }
{
    if members.len() != 1 {
        return None;
    }
    let member = &members[0];
    if member.0 == name {
        Some(&member.1)
    } else {
        None
    }
}

/// The name that isn't reserved which a field spells.
fn plain_name_field(alloc: Global, value: &Value<'_>, name: &'static str) -> Result<Name, Fault>
    ensures { IsReadFrom (value_view value.now)
        (option_and_then plain_name_in (text_held name.now (value_view value.now)))
        plain_name result }
{
    let text = text_field(alloc, value, name)?;
    match read_plain_name(alloc, text) {
        Ok(found) => Ok(found),
        Err(fault) => Err(fault.within(name)),
    }
}

/// The uid that a value describes.
fn read_uid(alloc: Global, value: &Value<'_>) -> Result<EntityUID, Fault>
    ensures { IsReadFrom (value_view value.now) (uid_in (value_view value.now)) uid_of result }
{
    check_fields(alloc, value, Row::OfEntityUid)?;
    let name = plain_name_field(alloc, value, "type")?;
    let id = text_field(alloc, value, "id")?;
    let eid = Eid(String::from_str(alloc, id)?);
    Ok(EntityUID::new(EntityType::new(name), eid, None))
}

/// The value that a JSON value describes.
#[cycle(value_reading)]
pub(crate) fn read_expr(alloc: Global, value: &Value<'_>) -> Result<RestrictedExpr, Fault>
    ensures { IsReadFrom (value_view value.now) (value_of (value_view value.now)) tree_of result }
{
    match value {
        Value::Null => Err(Fault::here(alloc, FaultKind::Wants(Expected::NoNull))),
        Value::Bool(flag) => Ok(RestrictedExpr::Bool(*flag)),
        Value::Number(_) => match whole_number(value) {
            Some(number) => Ok(RestrictedExpr::Long(number)),
            None => Err(Fault::here(alloc, FaultKind::NoLong)),
        },
        Value::String(text) => Ok(RestrictedExpr::String(String::from_str(alloc, *text)?)),
        Value::Array(items) => read_set(alloc, items),
        Value::Object(members) => read_object(alloc, members),
    }
}

/// The set of the values that some items describe.
#[cycle(value_reading)]
fn read_set(alloc: Global, items: &Vec<Value<'_>>) -> Result<RestrictedExpr, Fault>
    ensures { IsReadFrom (array (items_view items.now.items))
        (option_map set_value (values_of (items_view items.now.items))) tree_of result }
{
    let mut exprs = Vec::new(alloc);
    for (index, item) in items.iter().enumerate() {
        push_read(&mut exprs, index, read_expr(alloc, item))?;
    }
    Ok(RestrictedExpr::Set(exprs))
}

/// The value that an object describes.
#[cycle(value_reading)]
fn read_object<'a>(
    alloc: Global,
    members: &Vec<(&'a str, Value<'a>)>,
) -> Result<RestrictedExpr, Fault>
    ensures { IsReadFrom (object (members_view members.now.items))
        (value_of (object (members_view members.now.items))) tree_of result }
{
    let entity = "__entity";
    if let Some(held) = sole(members, entity) {
        return match read_uid(alloc, held) {
            Ok(uid) => Ok(RestrictedExpr::EntityUid(uid)),
            Err(fault) => Err(fault.within(entity)),
        };
    }
    let extension = "__extn";
    if let Some(held) = sole(members, extension) {
        return match read_call(alloc, held) {
            Ok(call) => Ok(call),
            Err(fault) => Err(fault.within(extension)),
        };
    }
    read_record(alloc, members)
}

/// The name of the function that a value calls which has the fields of a call.
fn read_function(alloc: Global, value: &Value<'_>) -> Result<Name, Fault>
    ensures { let j = value_view value.now in
        IsReadFrom j (if_so (has_only (known_fields Row.OfCall j) j)
        (option_and_then plain_name_in (text_held (codes "fn") j))) plain_name result }
{
    check_fields(alloc, value, Row::OfCall)?;
    plain_name_field(alloc, value, "fn")
}

/// The call of a function on an argument.
fn call_on(alloc: Global, function: Name, argument: RestrictedExpr) -> Result<RestrictedExpr, Fault>
    ensures { MatchResult result
        (λ call. tree_of call ≡ call_value (plain_name function) (tree (tree_of argument) no_tree))
        (λ fault. fault ≡ Fault.Memory) }
{
    Ok(RestrictedExpr::ExtensionCall {
        function,
        args: vec![in alloc; argument]?,
    })
}

/// The call that a value describes.
#[cycle(value_reading)]
fn read_call(alloc: Global, value: &Value<'_>) -> Result<RestrictedExpr, Fault>
    ensures { IsReadFrom (value_view value.now) (call_in (value_view value.now)) tree_of result }
{
    let function = read_function(alloc, value)?;
    match read_expr(alloc, field(alloc, value, "arg")?) {
        Ok(argument) => call_on(alloc, function, argument),
        Err(fault) => Err(fault.within("arg")),
    }
}

/// The record of the values that some members describe.
#[cycle(value_reading)]
fn read_record<'a>(
    alloc: Global,
    members: &Vec<(&'a str, Value<'a>)>,
) -> Result<RestrictedExpr, Fault>
    ensures { IsReadFrom (object (members_view members.now.items))
        (option_map record_of_pairs (pairs_of (members_view members.now.items) []))
        tree_of result }
{
    let mut pairs = BTreeMap::new(alloc);
    for (index, member) in members.iter().enumerate() {
        let read = read_expr(alloc, &member.1);
        put_read(alloc, &mut pairs, index, member.0, read)?;
    }
    Ok(RestrictedExpr::Record(pairs))
}
