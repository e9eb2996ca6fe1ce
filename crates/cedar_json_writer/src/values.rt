//! Values of Cedar that are written.

ghost use Rattle.std.specs.Prelude.{◌≡◌, ◌++◌, ◌∷◌, [], Some, true, false, MatchOption, MatchResult, OnOk, IfErr, Contains};
ghost use Rattle.std.specs.Fmt.{signed_decimal};
ghost use Rattle.json.specs.Json.{number};
ghost use Rattle.json.specs.Token.{begin_object, end_object};
ghost use Rattle.cedar_json_writer.specs.Words.{AddsField, AddsValue, IsChecked, SoundPairs, SoundValue, Tree, call_opening, call_value, entries_of, flaw_of, is_among, is_long, key_flaws, map_value, name_text, pairs_document, pairs_flaws, plain_name, set_value, tree_of, trees_of, uid_document, uid_of, uid_value, value_document, value_expr, value_flaws, value_keys, written_pairs};

use crate::fault::{Unwritable, WriteFault};
use crate::fields::{close_object, open_object, write_name, write_name_field, write_text_field};
use crate::written::{Written, write_field};
use cedar_ast::{EntityUID, Name, RestrictedExpr, Value};
use json::{Pretty, Token};
use std::alloc::{AllocError, Global};
use std::collections::BTreeMap;

/// The key that a text is, of those that say that an object is an entity or a call.
fn value_key(text: &str) -> Option<&'static str>
    ensures { MatchOption result (is_among text.now value_keys ≡ false)
        (λ key. (is_among text.now value_keys ≡ true) × (key.now ≡ text.now)) }
{
    match text {
        "__entity" => Some("__entity"),
        "__extn" => Some("__extn"),
        _ => None,
    }
}

/// Refuses a record whose one key says that it is an entity or a call.
fn check_keys(values: &BTreeMap<String, RestrictedExpr>) -> Result<(), Unwritable>
    ensures { MatchResult result (λ _. key_flaws (entries_of values.now) ≡ [])
        (λ what. Contains (key_flaws (entries_of values.now)) (flaw_of what)) }
{
    if values.len() != 1 {
        return Ok(());
    }
    match values.first_key_value() {
        Some((name, _)) => match value_key(name.as_str()) {
            Some(key) => Err(Unwritable::LoneKey(key)),
            None => Ok(()),
        },
        None => Ok(()),
    }
}

/// Writes a whole number.
fn write_number(alloc: Global, out: &mut Pretty, whole: &i64) -> Result<(), WriteFault>
    ensures written { OnOk result (AddsValue out.old out.new (number (signed_decimal whole.now))) }
    ensures fits { is_long whole.now ≡ true }
    ensures fault { IfErr result (λ fault. fault ≡ WriteFault.Memory) }
{
    let value = *whole;
    let text = value.to_string(alloc)?;
    out.token(Token::Number(text.as_str()))?;
    Ok(())
}

/// Writes the object of a uid.
pub(crate) fn write_uid(alloc: Global, out: &mut Pretty, uid: &EntityUID) -> Result<(), AllocError>
    ensures { OnOk result (AddsValue out.old out.new (uid_document (uid_of uid.now))) }
{
    out.token(Token::BeginObject)?;
    write_name_field(alloc, out, "type", uid.entity_type().name().as_internal())?;
    write_text_field(out, "id", uid.eid().as_str())?;
    out.token(Token::EndObject)
}

/// Writes the bracket that opens an object, and its first field, which holds a uid.
pub(crate) fn open_with_uid(
    alloc: Global,
    out: &mut Pretty,
    name: &str,
    uid: &EntityUID,
) -> Result<(), AllocError>
    ensures { OnOk result (AddsField (out.old ++ begin_object ∷ []) out.new name.now
        (Some (uid_document (uid_of uid.now)))) }
{
    out.token(Token::BeginObject)?;
    out.token(Token::Key(name))?;
    write_uid(alloc, out, uid)
}

/// Writes a reference to an entity.
fn write_entity(alloc: Global, out: &mut Pretty, uid: &EntityUID) -> Result<(), WriteFault>
    ensures written { OnOk result (AddsValue out.old out.new
        (value_document (uid_value (uid_of uid.now)))) }
    ensures fault { IfErr result (λ fault. fault ≡ WriteFault.Memory) }
{
    open_with_uid(alloc, out, "__entity", uid)?;
    close_object(out)
}

/// Writes what stands before the argument of a call.
fn open_call(alloc: Global, out: &mut Pretty, function: &Name) -> Result<(), AllocError>
    ensures { OnOk result (out.new
        ≡ out.old ++ call_opening (name_text (plain_name function.now))) }
{
    out.token(Token::BeginObject)?;
    open_object(out, "__extn")?;
    out.token(Token::Key("fn"))?;
    write_name(alloc, out, function.as_internal())?;
    out.token(Token::Key("arg"))
}

/// Writes the brackets that close the objects of a call.
fn close_call(out: &mut Pretty) -> Result<(), WriteFault>
    ensures written { OnOk result (out.new ≡ out.old ++ end_object ∷ end_object ∷ []) }
    ensures fault { IfErr result (λ fault. fault ≡ WriteFault.Memory) }
{
    out.token(Token::EndObject)?;
    close_object(out)
}

/// Writes a value.
#[cycle(value_writing)]
pub(crate) fn write_value(
    alloc: Global,
    out: &mut Pretty,
    expr: &RestrictedExpr,
) -> Result<(), WriteFault>
    ensures written { OnOk result (AddsValue out.old out.new (value_document (tree_of expr.now))) }
    ensures checked { IsChecked result (value_flaws (tree_of expr.now))
        (SoundValue (tree_of expr.now)) }
{
    match expr {
        RestrictedExpr::Bool(flag) => Ok(out.token(Token::Bool(*flag))?),
        RestrictedExpr::Long(number) => write_number(alloc, out, number),
        RestrictedExpr::String(text) => Ok(out.token(Token::String(text.as_str()))?),
        RestrictedExpr::EntityUid(uid) => write_entity(alloc, out, uid),
        RestrictedExpr::Set(values) => write_values(alloc, out, values),
        RestrictedExpr::Record(values) => write_record_value(alloc, out, values),
        RestrictedExpr::ExtensionCall { function, args } => {
            write_call(alloc, out, function, args)
        }
    }
}

/// Writes the array of some values.
#[cycle(value_writing)]
fn write_values(
    alloc: Global,
    out: &mut Pretty,
    values: &Vec<RestrictedExpr>,
) -> Result<(), WriteFault>
    ensures written { OnOk result (AddsValue out.old out.new
        (value_document (set_value (trees_of values.now.items)))) }
    ensures checked { IsChecked result (value_flaws (set_value (trees_of values.now.items)))
        (SoundValue (set_value (trees_of values.now.items))) }
{
    out.token(Token::BeginArray)?;
    for value in values {
        write_value(alloc, out, value)?;
    }
    out.token(Token::EndArray)?;
    Ok(())
}

/// Writes the object of a record.
#[cycle(value_writing)]
fn write_record_value(
    alloc: Global,
    out: &mut Pretty,
    values: &BTreeMap<String, RestrictedExpr>,
) -> Result<(), WriteFault>
    ensures written { OnOk result (AddsValue out.old out.new
        (value_document (map_value (entries_of values.now)))) }
    ensures checked { IsChecked result (value_flaws (map_value (entries_of values.now)))
        (SoundValue (map_value (entries_of values.now))) }
{
    check_keys(values)?;
    out.token(Token::BeginObject)?;
    for (name, value) in values {
        out.token(Token::Key(name.as_str()))?;
        write_value(alloc, out, value)?;
    }
    close_object(out)
}

/// Writes a call.
#[cycle(value_writing)]
fn write_call(
    alloc: Global,
    out: &mut Pretty,
    function: &Name,
    args: &Vec<RestrictedExpr>,
) -> Result<(), WriteFault>
    ensures written { OnOk result (AddsValue out.old out.new
        (value_document (call_value (plain_name function.now) (trees_of args.now.items)))) }
    ensures checked { IsChecked result
        (value_flaws (call_value (plain_name function.now) (trees_of args.now.items)))
        (SoundValue (call_value (plain_name function.now) (trees_of args.now.items))) }
{
    if args.len() != 1 {
        return Err(WriteFault::Unwritable(Unwritable::Arguments(args.len())));
    }
    open_call(alloc, out, function)?;
    write_value(alloc, out, &args[0])?;
    close_call(out)
}

impl Written for Value {
    ghost Plain = { Tree };

    ghost document = { value_document };

    ghost flaws = { value_flaws };

    ghost Sound = { SoundValue };

    ghost shown = { λ value. tree_of (value_expr value) };

    /// Writes the value.
    fn write(&self, alloc: Global, out: &mut Pretty) -> Result<(), WriteFault> {
        write_value(alloc, out, self.expr())
    }
}

/// Writes a field that holds values, each under its text.
pub(crate) fn write_attribute_values(
    alloc: Global,
    out: &mut Pretty,
    field: &str,
    values: &BTreeMap<String, Value>,
) -> Result<(), WriteFault>
    ensures written { OnOk result (AddsField out.old out.new field.now
        (Some (pairs_document (written_pairs values.now)))) }
    ensures checked { IsChecked result (pairs_flaws (written_pairs values.now))
        (SoundPairs (written_pairs values.now)) }
{
    write_field(alloc, out, field, values)
}
