//! How deep and how large types are once common types are written out: first the common types, then
//! of entity types the shape and the tags, then the contexts of actions.

use cedar_json::{cedar_extensions, fragment_from_json};
use cedar_schema::SchemaError;
use cedar_schema::below::{M, Memory};
use cedar_schema::json_schema::{Fragment, RawName};
use cedar_written_out::{DeclaredType, Measured, written_out};
use checked::same;
use std::alloc::Global;
use std::test::Fail;

/// Common types that refer to one another, to nothing and to themselves, and what uses them.
const TYPES: &str = r#"{"": {"commonTypes": {
    "A": {"type": "Set", "element": {"type": "B"}},
    "B": {"type": "Record", "attributes": {"x": {"type": "Long"}, "y": {"type": "C"}}},
    "C": {"type": "Set", "element": {"type": "decimal"}},
    "D": {"type": "E"}, "E": {"type": "Set", "element": {"type": "D"}},
    "F": {"type": "Gone"}, "G": {"type": "Set", "element": {"type": "F"}},
    "H": {"type": "Record", "attributes": {}}, "I": {"type": "EntityOrCommon", "name": "User"}},
  "entityTypes": {"Photo": {"tags": {"type": "A"}}, "User": {"shape": {"type": "Record",
    "attributes": {"a": {"type": "A"}, "b": {"type": "B"}, "c": {"type": "I"}}}}},
  "actions": {"none": {}, "view": {"appliesTo": {"principalTypes": ["User"],
    "resourceTypes": ["Photo"], "context": {"type": "B"}}}}}}"#;

/// A common type in a namespace whose name shadows that of another.
const SHADOWED: &str = r#"{"": {"commonTypes": {"A": {"type": "Long"}}, "entityTypes": {},
  "actions": {}}, "N": {"commonTypes": {"A": {"type": "Long"}}, "entityTypes": {},
  "actions": {}}}"#;

/// What a type is of.
fn named(alloc: Global, declared: &DeclaredType) -> M<String> {
    let text = match declared {
        DeclaredType::CommonType(name) => format!(in alloc; "{name}"),
        DeclaredType::Shape(ty) => format!(in alloc; "shape {ty}"),
        DeclaredType::Tags(ty) => format!(in alloc; "tags {ty}"),
        DeclaredType::Context(uid) => format!(in alloc; "context {uid}"),
    };
    text.or(Err(Memory))
}

/// A type with its depth and its size.
fn line(alloc: Global, it: &Measured) -> M<String> {
    let name = named(alloc, &it.declared)?;
    let text = match it.figure {
        Some(figure) => format!(in alloc; "{name} {} {}; ", figure.depth, figure.size),
        None => format!(in alloc; "{name} none; "),
    };
    text.or(Err(Memory))
}

/// The types, one after another.
fn lines(alloc: Global, types: &[Measured]) -> M<String> {
    let mut text = String::new(alloc);
    for it in types {
        text.push_str(line(alloc, it)?.as_str())?;
    }
    Ok(text)
}

/// The answer of measuring fragments, as a text.
fn answer(alloc: Global, fragments: &[Fragment<RawName>]) -> Result<String, Fail> {
    let extensions = cedar_extensions(alloc)?;
    match written_out(alloc, fragments, &extensions) {
        Ok(types) => Ok(lines(alloc, &types)?),
        Err(SchemaError::Memory(refused)) => Err(refused.into()),
        Err(error) => Ok(error.to_string(alloc)?),
    }
}

/// Fails, with the row, unless measuring what a text declares gives an answer.
fn measures(alloc: Global, row: &str, text: &str, expected: &str) -> Result<(), Fail> {
    let mut fragments = Vec::new(alloc);
    fragments.push(fragment_from_json(alloc, text, 0)?)?;
    same(row, answer(alloc, &fragments)?.as_str(), expected)
}

#[test]
fn common_types_are_counted_where_they_are_used(rt: HostRuntime) -> Result<(), Fail> {
    let expected = "A 4 5; B 3 4; C 2 2; D none; E none; F none; G none; H 1 1; I 1 1; \
        shape Photo 1 1; tags Photo 4 5; shape User 5 11; context Action::\"none\" 1 1; \
        context Action::\"view\" 3 4; ";
    measures(rt.alloc(), "types", TYPES, expected)
}

#[test]
fn what_shadows_another_is_refused(rt: HostRuntime) -> Result<(), Fail> {
    let expected = "the type N::A would shadow the type A";
    measures(rt.alloc(), "shadowed", SHADOWED, expected)
}
