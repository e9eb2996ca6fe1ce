//! Reading declarations of entity types.

ghost use Rattle.std.specs.Prelude.{◌≡◌, Some, None, codes, map};
ghost use Rattle.json.specs.Find.{as_str, get};
ghost use Rattle.json.specs.Value.{value_view};
ghost use Rattle.cedar_json.specs.Words.{Entity, IsReadFrom, Reference, Text, WrittenEntity, body_by, choices_in, eid_text, empty_record, entity_of, entity_reference, items_of, raw_expr, raw_record, raw_reference, shape_in, standard_of, written_entity, written_kind};

use crate::annotations::check_annotations;
use crate::fault::{Expected, Fault, FaultKind, Row};
use crate::fields::{check_fields, flag_field};
use crate::from_json::{Described, FromJson, field_or_else};
use crate::from_json_owned::FromJsonOwned;
use crate::place_table::Cursor;
use crate::spelling::read_name;
use cedar_ast::{Eid, NonEmpty};
use cedar_schema_ast::json_schema::{
    AttributesOrContext, EntityType, EntityTypeKind, RawName, RecordType, StandardEntityType, Type,
    TypeVariant,
};
use json::Value;
use std::alloc::Global;
use std::collections::BTreeMap;

impl Described for RawName {
    ghost Plain = { Reference };

    ghost describes = { entity_reference };

    ghost shown = { raw_reference None Entity };
}

impl FromJson for RawName {
    /// The name of an entity type that a value spells.
    fn read(alloc: Global, value: &Value<'_>, cursor: Cursor<'_>) -> Result<RawName, Fault> {
        match value.as_str() {
            Some(text) => read_name(alloc, text, cursor.loc()),
            None => Err(Fault::here(alloc, FaultKind::Wants(Expected::Text))),
        }
    }
}

impl Described for Eid {
    ghost Plain = { Text };

    ghost describes = { as_str };

    ghost shown = { eid_text };
}

impl FromJson for Eid {
    /// The id that a value is.
    fn read(alloc: Global, value: &Value<'_>, _cursor: Cursor<'_>) -> Result<Eid, Fault> {
        match value.as_str() {
            Some(id) => Ok(Eid(String::from_str(alloc, id)?)),
            None => Err(Fault::here(alloc, FaultKind::Wants(Expected::Text))),
        }
    }
}

/// The ids that an array lists, at least one.
fn read_choices(
    alloc: Global,
    value: &Value<'_>,
    cursor: Cursor<'_>,
) -> Result<NonEmpty<Eid>, Fault>
    ensures { IsReadFrom (value_view value.now)
        (choices_in (value_view value.now)) (λ choices. map eid_text (items_of choices)) result }
{
    let mut ids = Vec::<Eid>::read(alloc, value, cursor)?;
    if ids.is_empty() {
        return Err(Fault::here(alloc, FaultKind::NoChoices));
    }
    let head = ids.remove(0);
    Ok(NonEmpty { head, tail: ids })
}

/// The type of a shape or a context that a field describes; the closed record without attributes
/// where it is absent.
pub(crate) fn shape_field(
    alloc: Global,
    value: &Value<'_>,
    name: &'static str,
    cursor: Cursor<'_>,
) -> Result<AttributesOrContext<RawName>, Fault>
    ensures { IsReadFrom (value_view value.now)
        (shape_in (get name.now (value_view value.now))) (λ shape. raw_expr None shape.0) result }
{
    let absent = Type::Plain {
        ty: TypeVariant::Record(empty_record(alloc)),
        loc: None,
    };
    let ty = field_or_else(alloc, value, name, absent, cursor)?;
    Ok(AttributesOrContext(ty))
}

/// The closed record type without attributes.
fn empty_record(alloc: Global) -> RecordType<RawName>
    ensures { raw_record None result ≡ empty_record }
{
    RecordType {
        attributes: BTreeMap::new(alloc),
        additional_attributes: false,
    }
}

/// What a declaration says that lists no ids.
fn read_standard(
    alloc: Global,
    value: &Value<'_>,
    cursor: Cursor<'_>,
) -> Result<EntityTypeKind<RawName>, Fault>
    ensures { IsReadFrom (value_view value.now)
        (standard_of (value_view value.now)) written_kind result }
{
    let member_of_types = field_or_else(alloc, value, "memberOfTypes", Vec::new(alloc), cursor)?;
    let shape = shape_field(alloc, value, "shape", cursor)?;
    let tags = field_or_else(alloc, value, "tags", None, cursor)?;
    Ok(EntityTypeKind::Standard(StandardEntityType {
        member_of_types,
        shape,
        tags,
    }))
}

/// What a declaration says by its field `enum`.
fn read_kind(
    alloc: Global,
    value: &Value<'_>,
    cursor: Cursor<'_>,
) -> Result<EntityTypeKind<RawName>, Fault>
    ensures { IsReadFrom (value_view value.now)
        (body_by (value_view value.now) (get (codes "enum") (value_view value.now)))
        written_kind result }
{
    let Some(held) = value.get("enum") else {
        check_fields(alloc, value, Row::OfEntityType)?;
        return read_standard(alloc, value, cursor);
    };
    check_fields(alloc, value, Row::OfEnumeratedType)?;
    match read_choices(alloc, held, cursor.field(value, "enum")) {
        Ok(choices) => Ok(EntityTypeKind::Enum { choices }),
        Err(fault) => Err(fault.within("enum")),
    }
}

impl Described for EntityType<RawName> {
    ghost Plain = { WrittenEntity };

    ghost describes = { entity_of };

    ghost shown = { written_entity };
}

impl FromJsonOwned for EntityType<RawName> {
    /// The declaration of an entity type that a value describes.
    fn take(
        alloc: Global,
        value: &mut Value<'_>,
        cursor: Cursor<'_>,
    ) -> Result<EntityType<RawName>, Fault> {
        let external = flag_field(alloc, value, "external", false)?;
        check_annotations(alloc, value)?;
        let kind = read_kind(alloc, value, cursor)?;
        Ok(EntityType {
            kind,
            external,
            loc: cursor.key_loc(),
        })
    }
}
