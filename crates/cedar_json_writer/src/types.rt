//! Types that are written.

ghost use Rattle.std.specs.Prelude.{◌≡◌, ◌++◌, ◌∷◌, [], Some, None, true, false, MatchOption, OnOk, IfErr, codes};
ghost use Rattle.json.specs.Json.{member, string};
ghost use Rattle.json.specs.Token.{end_object};
ghost use Rattle.cedar_json_writer.specs.Words.{AddsField, AddsFields, AddsValue, Common, IsChecked, SoundType, attribute_document, extension_expr, flag_held, form_opening, is_among, name_text, named, optional_member, raw_attribute, raw_expr, raw_name, raw_record, raw_reference, raw_variant, set_expr, type_document, type_flaws, type_members, type_words, unreserved_id_text};

use crate::fault::{Unwritable, WriteFault};
use crate::fields::{
    close_object, close_with_flag, open_object, write_flag, write_name_field, write_text_field,
};
use cedar_ast::UnreservedId;
use cedar_schema_ast::json_schema::{RawName, RecordType, Type, TypeOfAttribute, TypeVariant};
use json::{Pretty, Token};
use std::alloc::{AllocError, Global};

/// The word that a text is, of those that say of which form a type is.
fn type_word(text: &str) -> Option<&'static str>
    ensures { MatchOption result (is_among text.now type_words ≡ false)
        (λ word. (is_among text.now type_words ≡ true) × (word.now ≡ text.now)) }
{
    match text {
        "String" => Some("String"),
        "Long" => Some("Long"),
        "Boolean" => Some("Boolean"),
        "Set" => Some("Set"),
        "Record" => Some("Record"),
        "Entity" => Some("Entity"),
        "EntityOrCommon" => Some("EntityOrCommon"),
        "Extension" => Some("Extension"),
        _ => None,
    }
}

/// The word that a name prints as, of those that say of which form a type is.
fn common_word(name: &RawName) -> Option<&'static str>
    ensures { MatchOption result (is_among (name_text (raw_name name.now)) type_words ≡ false)
        (λ word. (is_among (name_text (raw_name name.now)) type_words ≡ true)
        × (word.now ≡ name_text (raw_name name.now))) }
{
    let name = name.as_internal();
    if name.is_unqualified() {
        type_word(name.basename().as_str())
    } else {
        None
    }
}

/// Writes the field of a reference to a common type.
fn write_common(alloc: Global, out: &mut Pretty, name: &RawName) -> Result<(), WriteFault>
    ensures written { OnOk result (AddsFields out.old out.new
        (type_members (named (raw_reference None Common name.now)))) }
    ensures checked { IsChecked result (type_flaws (named (raw_reference None Common name.now)))
        (SoundType (named (raw_reference None Common name.now))) }
{
    if let Some(word) = common_word(name) {
        return Err(WriteFault::Unwritable(Unwritable::TypeWord(word)));
    }
    write_name_field(alloc, out, "type", name.as_internal())?;
    Ok(())
}

/// Writes the one field of a form that has no more.
fn write_word(out: &mut Pretty, word: &str) -> Result<(), WriteFault>
    ensures written { OnOk result
        (AddsField out.old out.new (codes "type") (Some (string word.now))) }
    ensures fault { IfErr result (λ fault. fault ≡ WriteFault.Memory) }
{
    write_text_field(out, "type", word)?;
    Ok(())
}

/// Writes the fields of a form that has a name.
fn write_named(
    alloc: Global,
    out: &mut Pretty,
    word: &str,
    name: &RawName,
) -> Result<(), WriteFault>
    ensures written { OnOk result (AddsFields out.old out.new (λ rest. member (codes "type")
        (string word.now)
        (member (codes "name") (string (name_text (raw_name name.now))) rest))) }
    ensures fault { IfErr result (λ fault. fault ≡ WriteFault.Memory) }
{
    write_text_field(out, "type", word)?;
    write_name_field(alloc, out, "name", name.as_internal())?;
    Ok(())
}

/// Writes the fields of an extension type.
fn write_extension(out: &mut Pretty, name: &UnreservedId) -> Result<(), WriteFault>
    ensures written { OnOk result (AddsFields out.old out.new
        (type_members (extension_expr (unreserved_id_text name.now)))) }
    ensures fault { IfErr result (λ fault. fault ≡ WriteFault.Memory) }
{
    write_text_field(out, "type", "Extension")?;
    write_text_field(out, "name", name.as_str())?;
    Ok(())
}

/// Writes the word of a form, and the key of the field of what types are within.
fn write_form(out: &mut Pretty, word: &str, within: &str) -> Result<(), AllocError>
    ensures { OnOk result (out.new ≡ out.old ++ form_opening word.now within.now) }
{
    out.token(Token::Key("type"))?;
    out.token(Token::String(word))?;
    out.token(Token::Key(within))
}

/// Writes the bracket that closes attributes, and the field for whether there may be others.
fn close_attributes(out: &mut Pretty, additional: bool) -> Result<(), WriteFault>
    ensures written { OnOk result (AddsFields (out.old ++ end_object ∷ []) out.new
        (optional_member (codes "additionalAttributes") (flag_held false additional))) }
    ensures fault { IfErr result (λ fault. fault ≡ WriteFault.Memory) }
{
    out.token(Token::EndObject)?;
    write_flag(out, "additionalAttributes", false, additional)?;
    Ok(())
}

/// Writes the fields of a type.
#[cycle(type_writing)]
fn write_fields(alloc: Global, out: &mut Pretty, ty: &Type<RawName>) -> Result<(), WriteFault>
    ensures written { OnOk result (AddsFields out.old out.new
        (type_members (raw_expr None ty.now))) }
    ensures checked { IsChecked result (type_flaws (raw_expr None ty.now))
        (SoundType (raw_expr None ty.now)) }
{
    match ty {
        Type::Plain { ty, .. } => write_variant(alloc, out, ty),
        Type::CommonTypeRef { type_name, .. } => write_common(alloc, out, type_name),
    }
}

/// Writes the fields of a type variant.
#[cycle(type_writing)]
fn write_variant(
    alloc: Global,
    out: &mut Pretty,
    ty: &TypeVariant<RawName>,
) -> Result<(), WriteFault>
    ensures written { OnOk result (AddsFields out.old out.new
        (type_members (raw_variant None ty.now))) }
    ensures checked { IsChecked result (type_flaws (raw_variant None ty.now))
        (SoundType (raw_variant None ty.now)) }
{
    match ty {
        TypeVariant::String => write_word(out, "String"),
        TypeVariant::Long => write_word(out, "Long"),
        TypeVariant::Boolean => write_word(out, "Boolean"),
        TypeVariant::Set { element } => write_set(alloc, out, element),
        TypeVariant::Record(record_type) => write_record(alloc, out, record_type),
        TypeVariant::Entity { name } => write_named(alloc, out, "Entity", name),
        TypeVariant::EntityOrCommon { type_name } => {
            write_named(alloc, out, "EntityOrCommon", type_name)
        }
        TypeVariant::Extension { name } => write_extension(out, name),
    }
}

/// Writes the fields of a set type.
#[cycle(type_writing)]
fn write_set(alloc: Global, out: &mut Pretty, element: &Type<RawName>) -> Result<(), WriteFault>
    ensures written { OnOk result (AddsFields out.old out.new
        (type_members (set_expr (raw_expr None element.now)))) }
    ensures checked { IsChecked result (type_flaws (set_expr (raw_expr None element.now)))
        (SoundType (set_expr (raw_expr None element.now))) }
{
    write_form(out, "Set", "element")?;
    write_type(alloc, out, element)
}

/// Writes the fields of a record type.
#[cycle(type_writing)]
fn write_record(
    alloc: Global,
    out: &mut Pretty,
    record_type: &RecordType<RawName>,
) -> Result<(), WriteFault>
    ensures written { OnOk result (AddsFields out.old out.new
        (type_members (raw_record None record_type.now))) }
    ensures checked { IsChecked result (type_flaws (raw_record None record_type.now))
        (SoundType (raw_record None record_type.now)) }
{
    write_form(out, "Record", "attributes")?;
    out.token(Token::BeginObject)?;
    for (name, attribute) in &record_type.attributes {
        write_attribute(alloc, out, name.as_str(), attribute)?;
    }
    close_attributes(out, record_type.additional_attributes)
}

/// Writes the field of an attribute, under its name.
#[cycle(type_writing)]
fn write_attribute(
    alloc: Global,
    out: &mut Pretty,
    name: &str,
    attribute: &TypeOfAttribute<RawName>,
) -> Result<(), WriteFault>
    ensures written { OnOk result (AddsField out.old out.new name.now
        (Some (attribute_document (raw_attribute None attribute.now).0
        (raw_attribute None attribute.now).1))) }
    ensures checked { IsChecked result (type_flaws (raw_attribute None attribute.now).1)
        (SoundType (raw_attribute None attribute.now).1) }
{
    open_object(out, name)?;
    write_fields(alloc, out, &attribute.ty)?;
    close_with_flag(out, "required", true, attribute.required)
}

/// Writes the object of a type.
#[cycle(type_writing)]
pub(crate) fn write_type(
    alloc: Global,
    out: &mut Pretty,
    ty: &Type<RawName>,
) -> Result<(), WriteFault>
    ensures written { OnOk result (AddsValue out.old out.new
        (type_document (raw_expr None ty.now))) }
    ensures checked { IsChecked result (type_flaws (raw_expr None ty.now))
        (SoundType (raw_expr None ty.now)) }
{
    out.token(Token::BeginObject)?;
    write_fields(alloc, out, ty)?;
    close_object(out)
}
