//! Reading types.

ghost use Rattle.std.specs.Prelude.{◌≡◌, ◌≢◌, [], Some, None, MatchResult, codes, option_and_then, option_map};
ghost use Rattle.json.specs.Json.{object};
ghost use Rattle.json.specs.Value.{value_view, members_view};
ghost use Rattle.cedar_json.specs.Words.{Common, Expr, IsReadFrom, IsTrueOf, additional_field, attribute_of, attributes_field, attributes_of, element_field, extension_in, plain_members, raw_attribute, raw_expr, raw_variant, record_of, reference_in, set_expr, text_held, type_by_word, type_of, type_with};

use crate::annotations::check_annotations;
use crate::fault::{Fault, Row};
use crate::fields::{check_fields, field, flag_field, object_field, text_field};
use crate::from_json::{Described, FromJson, described_field};
use crate::gathering::put_read;
use crate::place_table::Cursor;
use crate::spelling::{read_name, read_unreserved_id};
use cedar_schema_ast::json_schema::{RawName, RecordType, Type, TypeOfAttribute, TypeVariant};
use json::Value;
use std::alloc::Global;
use std::collections::BTreeMap;

/// The type of a variant that is written at a value.
fn plain_type(ty: TypeVariant<RawName>, cursor: Cursor<'_>) -> Type<RawName>
    ensures { raw_expr None result ≡ raw_variant None ty }
{
    Type::Plain {
        ty,
        loc: cursor.loc(),
    }
}

/// The extension type that the field `name` names.
fn extension_type(
    alloc: Global,
    value: &Value<'_>,
    cursor: Cursor<'_>,
) -> Result<Type<RawName>, Fault>
    ensures { IsReadFrom (value_view value.now)
        (option_and_then extension_in (text_held (codes "name") (value_view value.now)))
        (raw_expr None) result }
{
    let field = "name";
    let text = text_field(alloc, value, field)?;
    match read_unreserved_id(alloc, text) {
        Ok(name) => Ok(plain_type(TypeVariant::Extension { name }, cursor)),
        Err(fault) => Err(fault.within(field)),
    }
}

/// The common type that the field `type` names, whose text is the word.
fn common_type(
    alloc: Global,
    value: &Value<'_>,
    word: &str,
    cursor: Cursor<'_>,
) -> Result<Type<RawName>, Fault>
    ensures { MatchResult result
        (λ ty. reference_in Common word.now ≡ Some (raw_expr None ty))
        (λ fault. (fault ≢ Fault.Memory → reference_in Common word.now ≡ None)
        × (text_held (codes "type") (value_view value.now) ≡ Some word.now
        → IsTrueOf fault (value_view value.now))) }
{
    match read_name(alloc, word, cursor.field(value, "type").loc()) {
        Ok(type_name) => Ok(Type::CommonTypeRef {
            type_name,
            loc: cursor.loc(),
        }),
        Err(fault) => Err(fault.within("type")),
    }
}

impl Described for Type<RawName> {
    ghost Plain = { Expr };

    ghost describes = { type_of };

    ghost shown = { raw_expr None };
}

impl FromJson for Type<RawName> {
    /// The type that a JSON value describes.
    fn read(alloc: Global, value: &Value<'_>, cursor: Cursor<'_>) -> Result<Type<RawName>, Fault> {
        read_type_of(alloc, value, Row::OfType, cursor)
    }
}

/// The type that an object of a kind describes.
#[cycle(type_reading)]
pub(crate) fn read_type_of(
    alloc: Global,
    value: &Value<'_>,
    row: Row,
    cursor: Cursor<'_>,
) -> Result<Type<RawName>, Fault>
    ensures { IsReadFrom (value_view value.now)
        (type_with row (value_view value.now)) (raw_expr None) result }
{
    let word = text_field(alloc, value, "type")?;
    check_fields(alloc, value, row)?;
    read_type_by(alloc, value, word, cursor)
}

/// The type of a word, by the other fields of its object. The word is what the field `type` holds.
#[cycle(type_reading)]
fn read_type_by(
    alloc: Global,
    value: &Value<'_>,
    word: &str,
    cursor: Cursor<'_>,
) -> Result<Type<RawName>, Fault>
    ensures { let j = value_view value.now in
        let described = type_by_word word.now (element_field j) (attributes_field j)
        (additional_field j) (text_held (codes "name") j) in
        MatchResult result
        (λ ty. described ≡ Some (raw_expr None ty))
        (λ fault. (fault ≢ Fault.Memory → described ≡ None)
        × (text_held (codes "type") j ≡ Some word.now → IsTrueOf fault j)) }
{
    match word {
        "String" => Ok(plain_type(TypeVariant::String, cursor)),
        "Long" => Ok(plain_type(TypeVariant::Long, cursor)),
        "Boolean" => Ok(plain_type(TypeVariant::Boolean, cursor)),
        "Set" => read_set(alloc, value, cursor),
        "Record" => read_record(alloc, value, cursor),
        "Entity" => {
            let name = described_field(alloc, value, "name", cursor)?;
            Ok(plain_type(TypeVariant::Entity { name }, cursor))
        }
        "EntityOrCommon" => {
            let type_name = described_field(alloc, value, "name", cursor)?;
            Ok(plain_type(TypeVariant::EntityOrCommon { type_name }, cursor))
        }
        "Extension" => extension_type(alloc, value, cursor),
        _ => common_type(alloc, value, word, cursor),
    }
}

/// The type of the sets of what the field `element` describes.
#[cycle(type_reading)]
fn read_set(alloc: Global, value: &Value<'_>, cursor: Cursor<'_>) -> Result<Type<RawName>, Fault>
    ensures { IsReadFrom (value_view value.now)
        (option_map set_expr (element_field (value_view value.now))) (raw_expr None) result }
{
    let name = "element";
    let held = field(alloc, value, name)?;
    match read_type_of(alloc, held, Row::OfType, cursor.field(value, name)) {
        Ok(ty) => {
            let element = Box::new(alloc, ty)?;
            Ok(plain_type(TypeVariant::Set { element }, cursor))
        }
        Err(fault) => Err(fault.within(name)),
    }
}

/// The record type that the fields `attributes` and `additionalAttributes` describe.
#[cycle(type_reading)]
fn read_record(alloc: Global, value: &Value<'_>, cursor: Cursor<'_>) -> Result<Type<RawName>, Fault>
    ensures { IsReadFrom (value_view value.now)
        (record_of (additional_field (value_view value.now))
        (attributes_field (value_view value.now)))
        (raw_expr None) result }
{
    let additional_attributes = flag_field(alloc, value, "additionalAttributes", false)?;
    let name = "attributes";
    let members = object_field(alloc, value, name)?;
    match read_attributes(alloc, members, cursor.field(value, name)) {
        Ok(attributes) => {
            let record = RecordType {
                attributes,
                additional_attributes,
            };
            Ok(plain_type(TypeVariant::Record(record), cursor))
        }
        Err(fault) => Err(fault.within(name)),
    }
}

/// The attributes that some members describe.
#[cycle(type_reading)]
fn read_attributes(
    alloc: Global,
    members: &Vec<(&str, Value<'_>)>,
    cursor: Cursor<'_>,
) -> Result<BTreeMap<String, TypeOfAttribute<RawName>>, Fault>
    ensures { IsReadFrom (object (members_view members.now.items))
        (attributes_of (members_view members.now.items) [])
        (λ all. plain_members None all.entries) result }
{
    let mut attributes = BTreeMap::new(alloc);
    let mut at = cursor.first();
    for (index, member) in members.iter().enumerate() {
        let read = read_attribute(alloc, &member.1, at);
        put_read(alloc, &mut attributes, index, member.0, read)?;
        at = at.next();
    }
    Ok(attributes)
}

/// The attribute that a value describes.
#[cycle(type_reading)]
fn read_attribute(
    alloc: Global,
    value: &Value<'_>,
    cursor: Cursor<'_>,
) -> Result<TypeOfAttribute<RawName>, Fault>
    ensures { IsReadFrom (value_view value.now)
        (attribute_of (value_view value.now)) (raw_attribute None) result }
{
    let required = flag_field(alloc, value, "required", true)?;
    check_annotations(alloc, value)?;
    let ty = read_type_of(alloc, value, Row::OfAttribute, cursor)?;
    Ok(TypeOfAttribute {
        ty,
        required,
        loc: cursor.key_loc(),
    })
}
