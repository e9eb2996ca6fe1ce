//! Questions of what a schema knows of types, which are those of the entities of listed entity types,
//! or one of `Long`, `{*}` (any record) and `any` (any entity).

use crate::questions::located::with_number;
use crate::questions::missing;
use cedar_schema::below::{M, ValidationMode};
use cedar_schema::lookup::{KnownAttrs, SchemaLookup, known_attribute, literal_attributes};
use cedar_schema::{AttributeType, EntityKind, Type, ValidatorSchema};
use checked::names::{entity_type, uid};
use std::alloc::Global;
use std::test::Fail;

/// The type of the entities of some types, which stand between commas.
fn union(alloc: Global, names: &str) -> Result<Type, Fail> {
    let mut types = Vec::new(alloc);
    for name in names.split(',') {
        types.push(Type::named_entity_reference(alloc, entity_type(alloc, name)?)?)?;
    }
    let mode = ValidationMode::Permissive;
    Type::reduce_to_least_upper_bound(alloc, &types, mode).map_err(|_| Fail::from("no union"))
}

/// The type that a text spells.
pub(crate) fn type_of(alloc: Global, text: &str) -> Result<Type, Fail> {
    match text {
        "Long" => Ok(Type::Long),
        "any" => Ok(Type::Entity(EntityKind::AnyEntity)),
        "{*}" => Ok(Type::any_record(alloc)?),
        _ => union(alloc, text),
    }
}

/// The word before a type of entities, since one may have the name of another type.
fn kind_word(ty: &Type) -> &'static str {
    match ty {
        Type::Entity(_) => "entity ",
        _ => "",
    }
}

/// The type of an attribute, with a question mark before it where it is optional, and with the
/// number of the text where it was written.
fn attribute_text(alloc: Global, found: Option<AttributeType>) -> M<String> {
    match found {
        Some(found) => {
            let flag = if found.is_required() { "" } else { "?" };
            let kind = kind_word(&found.attr_type);
            let text = format!(in alloc; "{flag}{kind}{}", found.attr_type)?;
            with_number(alloc, text, found.loc)
        }
        None => missing(alloc),
    }
}

/// The attributes that are known of entities of a kind, or the one of a name.
fn of_kind(alloc: Global, schema: &ValidatorSchema, kind: &EntityKind, name: &str) -> M<String> {
    if name.is_empty() {
        return Ok(kind.all_known_attrs(alloc, schema)?.to_string(alloc)?);
    }
    attribute_text(alloc, known_attribute(alloc, schema, kind, name)?)
}

/// The answer to a question of what is known of a type, and of an attribute of a name.
fn of_type(
    alloc: Global,
    schema: &ValidatorSchema,
    word: &str,
    ty: &Type,
    name: &str,
) -> M<String> {
    match (word, ty) {
        ("known", Type::Entity(kind)) => of_kind(alloc, schema, kind, name),
        ("look_up", _) => {
            let found = Type::lookup_attribute_type(alloc, schema, ty, name)?;
            attribute_text(alloc, found)
        }
        ("listed", _) => Ok(ty.all_attributes(alloc, schema)?.to_string(alloc)?),
        ("may_have", _) => Ok(Type::may_have_attr(schema, ty, name).to_string(alloc)?),
        ("may_have_tags", _) => Ok(Type::may_have_tags(schema, ty).to_string(alloc)?),
        ("are_declared", _) => Ok(Type::has_declared_entity_types(schema, ty).to_string(alloc)?),
        _ => missing(alloc),
    }
}

/// The type of the literal of a uid, and the attributes of its entity.
fn of_literal(alloc: Global, schema: &ValidatorSchema, text: &str) -> Result<String, Fail> {
    let uid = uid(alloc, text)?;
    let literal = Type::euid_literal(alloc, &uid, schema)?;
    let attributes = literal_attributes::<Type>(alloc, &uid, schema)?;
    match (literal, attributes) {
        (Some(ty), Some(attributes)) => Ok(format!(in alloc; "{ty} {attributes}")?),
        (None, None) => Ok(missing(alloc)?),
        _ => Err(Fail::from("a literal without a type or without attributes")),
    }
}

/// The answer to a question of what is known of types.
pub(crate) fn answer(
    alloc: Global,
    schema: &ValidatorSchema,
    word: &str,
    of: &str,
) -> Result<String, Fail> {
    if word == "literal" {
        return of_literal(alloc, schema, of);
    }
    let (types, name) = of.split_once(' ').unwrap_or((of, ""));
    let ty = type_of(alloc, types)?;
    Ok(of_type(alloc, schema, word, &ty, name)?)
}
