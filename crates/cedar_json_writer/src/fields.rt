//! Fields and arrays that are written.

ghost use Rattle.std.specs.Prelude.{◌≡◌, ◌++◌, ◌∷◌, [], Some, None, OnOk, IfErr, map};
ghost use Rattle.json.specs.Json.{no_members, string};
ghost use Rattle.json.specs.Token.{begin_object, end_object, key};
ghost use Rattle.json.specs.Tree.{items_tokens};
ghost use Rattle.json.specs.Value.{items_of as spec_items};
ghost use Rattle.cedar_json_writer.specs.Words.{AddsField, AddsMembers, AddsValue, Entity, eid_text, flag_held, items_of, name_of, name_text, optional_member, raw_reference, reference_array, text_array};

use crate::fault::WriteFault;
use cedar_ast::{Eid, InternalName, NonEmpty};
use cedar_schema_ast::json_schema::RawName;
use json::{Pretty, Token};
use std::alloc::{AllocError, Global};

/// Writes a key, and the bracket that opens its object.
pub(crate) fn open_object(out: &mut Pretty, name: &str) -> Result<(), AllocError>
    ensures { OnOk result (out.new ≡ out.old ++ key name.now ∷ begin_object ∷ []) }
{
    out.token(Token::Key(name))?;
    out.token(Token::BeginObject)
}

/// Writes the bracket that closes an object.
pub(crate) fn close_object(out: &mut Pretty) -> Result<(), WriteFault>
    ensures written { OnOk result (out.new ≡ out.old ++ end_object ∷ []) }
    ensures fault { IfErr result (λ fault. fault ≡ WriteFault.Memory) }
{
    out.token(Token::EndObject)?;
    Ok(())
}

/// Writes a field that holds a text.
pub(crate) fn write_text_field(out: &mut Pretty, name: &str, text: &str) -> Result<(), AllocError>
    ensures { OnOk result (AddsField out.old out.new name.now (Some (string text.now))) }
{
    out.token(Token::Key(name))?;
    out.token(Token::String(text))
}

/// Writes a field that holds a truth value, where it says what its absence doesn't.
pub(crate) fn write_flag(
    out: &mut Pretty,
    name: &str,
    absent: bool,
    flag: bool,
) -> Result<(), AllocError>
    ensures { OnOk result (AddsField out.old out.new name.now (flag_held absent flag)) }
{
    if flag != absent {
        out.token(Token::Key(name))?;
        out.token(Token::Bool(flag))?;
    }
    Ok(())
}

/// Writes the bracket that closes an object, behind its last field, which holds a truth value where
/// it says what its absence doesn't.
pub(crate) fn close_with_flag(
    out: &mut Pretty,
    name: &str,
    absent: bool,
    flag: bool,
) -> Result<(), WriteFault>
    ensures written { OnOk result (AddsMembers out.old out.new
        (optional_member name.now (flag_held absent flag) no_members)) }
    ensures fault { IfErr result (λ fault. fault ≡ WriteFault.Memory) }
{
    write_flag(out, name, absent, flag)?;
    close_object(out)
}

/// Writes a name as a text.
pub(crate) fn write_name(
    alloc: Global,
    out: &mut Pretty,
    name: &InternalName,
) -> Result<(), AllocError>
    ensures { OnOk result (AddsValue out.old out.new (string (name_text (name_of name.now)))) }
{
    let text = name.to_string(alloc)?;
    out.token(Token::String(text.as_str()))
}

/// Writes a field that holds a name.
pub(crate) fn write_name_field(
    alloc: Global,
    out: &mut Pretty,
    field: &str,
    name: &InternalName,
) -> Result<(), AllocError>
    ensures { OnOk result
        (AddsField out.old out.new field.now (Some (string (name_text (name_of name.now))))) }
{
    out.token(Token::Key(field))?;
    write_name(alloc, out, name)
}

/// Writes a field that holds names of entity types.
pub(crate) fn write_names_field(
    alloc: Global,
    out: &mut Pretty,
    field: &str,
    names: &Vec<RawName>,
) -> Result<(), AllocError>
    ensures { OnOk result (AddsField out.old out.new field.now
        (Some (reference_array (map (raw_reference None Entity) names.now.items)))) }
{
    out.token(Token::Key(field))?;
    out.token(Token::BeginArray)?;
    for name in names {
        write_name(alloc, out, name.as_internal())?;
    }
    out.token(Token::EndArray)
}

/// Writes some ids, and the bracket that closes their array.
fn write_more_ids(out: &mut Pretty, ids: &Vec<Eid>) -> Result<(), AllocError>
    ensures { OnOk result (out.new
        ≡ out.old ++ items_tokens (spec_items (map string (map eid_text ids.now.items)))) }
{
    for id in ids {
        out.token(Token::String(id.as_str()))?;
    }
    out.token(Token::EndArray)
}

/// Writes an array of ids.
pub(crate) fn write_ids(out: &mut Pretty, ids: &NonEmpty<Eid>) -> Result<(), AllocError>
    ensures { OnOk result (AddsValue out.old out.new
        (text_array (map eid_text (items_of ids.now)))) }
{
    out.token(Token::BeginArray)?;
    out.token(Token::String(ids.head.as_str()))?;
    write_more_ids(out, &ids.tail)
}
