//! The table of places that stands beside a fragment, and the places that are shown.

use cedar_ast::Loc;
use cedar_json::fragment_from_json;
use cedar_places::{Places, Written, WrittenAt, place_of, second_place_of};
use cedar_schema_semantics::{SchemaError, UnsupportedFeature};
use checked::names::{entity_type, internal_name, name, uid};
use checked::{holds, same};
use std::alloc::{AllocError, Global};
use std::fmt::Write;
use std::test::Fail;

/// A text with all that the table lists.
const TEXT: &str = "{\"N\": {\"commonTypes\": {
    \"B\": {\"type\": \"Set\", \"element\": {\"type\":\"Record\",\"attributes\":{
        \"c\": {\"type\":\"Extension\",\"name\":\"ip\"}},\"additionalAttributes\":true}},
    \"A\": {\"type\": \"Extension\", \"name\": \"ip\"}},
  \"entityTypes\": {\"E\": {\"tags\": {\"type\":\"Extension\",\"name\":\"other\"}},
    \"F\": {\"enum\": [\"a\"]}},
  \"actions\": {\"ä\": {\"attributes\": {}}, \"b\": {}}},
\"\": {\"entityTypes\": {\"E\": {}}, \"actions\": {\"b\": {\"attributes\": {}}}}}";

/// What the table lists, in order, each with the first bytes of the text at its place.
const LISTED: &str = "\
entity type E: \"E\"
action Action::\"b\" with attributes: \"b\"
common type N::A: \"A\"
extension type ip: {\"type\": \"Ex
common type N::B: \"B\"
open record: {\"type\":\"Rec
extension type ip: {\"type\":\"Ext
entity type N::E: \"E\"
extension type other: {\"type\":\"Ext
entity type N::F: \"F\"
action N::Action::\"b\": \"b\"
action N::Action::\"ä\" with attributes: \"ä\"
";

/// The first bytes of the text at a place.
fn piece(loc: Option<Loc>) -> &'static str {
    match loc {
        Some(loc) => {
            let start = loc.start as usize;
            let stop = loc.stop as usize;
            TEXT.get(start..stop.min(start.saturating_add(12)))
                .unwrap_or("?")
        }
        None => "?",
    }
}

/// Writes what was written.
fn write_what(text: &mut String, what: &Written) -> Result<(), AllocError> {
    match what {
        Written::CommonType(name) => write!(text, "common type {name}"),
        Written::EntityType(name) => write!(text, "entity type {name}"),
        Written::OpenRecord => write!(text, "open record"),
        Written::ExtensionType(name) => write!(text, "extension type {name}"),
        Written::Action {
            ty,
            id,
            has_attributes,
        } => {
            let with = if *has_attributes {
                " with attributes"
            } else {
                ""
            };
            write!(text, "action {ty}::{id:?}{with}")
        }
    }
}

/// Writes what was written, and the first bytes of the text at its place.
fn write_line(text: &mut String, it: &WrittenAt) -> Result<(), AllocError> {
    write_what(text, &it.what)?;
    write!(text, ": {}\n", piece(it.loc))
}

/// What a table lists.
fn lines(alloc: Global, places: &Places) -> Result<String, Fail> {
    let mut text = String::new(alloc);
    for it in &places.0 {
        write_line(&mut text, it)?;
    }
    Ok(text)
}

/// The places of the text.
fn places_of_text(alloc: Global) -> Result<Places, Fail> {
    match fragment_from_json(alloc, TEXT, 0) {
        Ok(fragment) => Ok(Places::of(alloc, &fragment)?),
        Err(_) => Err("not read")?,
    }
}

#[test]
fn the_table_lists_what_is_declared(rt: HostRuntime) -> Result<(), Fail> {
    let alloc = rt.alloc();
    let places = places_of_text(alloc)?;
    same("the table", lines(alloc, &places)?.as_str(), LISTED)
}

/// The refusals that are asked about, each over a name.
#[derive(Clone, Copy, Debug)]
enum Refused {
    /// An open record.
    Open,
    /// The attributes of an action.
    Attributes,
    /// An extension type that isn't known.
    Unknown,
    /// An entity type that is defined twice.
    TypeTwice,
    /// An action that is defined twice.
    ActionTwice,
    /// A common type that is defined twice.
    CommonTypeTwice,
}

/// A refusal over a name.
fn refusal(alloc: Global, refused: Refused, text: &str) -> Result<SchemaError, Fail> {
    Ok(match refused {
        Refused::Open => {
            SchemaError::UnsupportedFeature(UnsupportedFeature::OpenRecordsAndEntities)
        }
        Refused::Attributes => {
            let ids = vec![in alloc; String::from_str(alloc, text)?]?;
            SchemaError::UnsupportedFeature(UnsupportedFeature::ActionAttributes(ids))
        }
        Refused::Unknown => SchemaError::UnknownExtensionType(name(alloc, text)?),
        Refused::TypeTwice => SchemaError::DuplicateEntityType(entity_type(alloc, text)?),
        Refused::ActionTwice => SchemaError::DuplicateAction(uid(alloc, text)?),
        Refused::CommonTypeTwice => SchemaError::DuplicateCommonType(internal_name(alloc, text)?),
    })
}

/// The first bytes of the text at the two places that are shown for a refusal.
fn shown(places: &Places, error: SchemaError) -> (&'static str, &'static str) {
    (
        piece(place_of(places, &error)),
        piece(second_place_of(places, &error)),
    )
}

/// Refusals over names, without a place of their own, and the first bytes of the text at the two
/// places that are shown: at the first one stands what the table lists, and at the second one the
/// other definition, if there is one.
const REFUSALS: &[(Refused, &str, (&str, &str))] = &[
    (Refused::Open, "", ("{\"type\":\"Rec", "?")),
    (Refused::Attributes, "ä", ("\"ä\"", "?")),
    (Refused::Attributes, "c", ("?", "?")),
    (Refused::Unknown, "ip", ("{\"type\": \"Ex", "?")),
    (Refused::Unknown, "other", ("{\"type\":\"Ext", "?")),
    (Refused::TypeTwice, "F", ("?", "?")),
    (Refused::TypeTwice, "N::F", ("?", "\"F\"")),
    (Refused::ActionTwice, "N::Action::ä", ("?", "\"ä\"")),
    (Refused::CommonTypeTwice, "N::B", ("?", "\"B\"")),
    (Refused::CommonTypeTwice, "N::E", ("?", "?")),
];

#[test]
fn what_is_refused_is_found_in_the_table(rt: HostRuntime) -> Result<(), Fail> {
    let alloc = rt.alloc();
    let places = places_of_text(alloc)?;
    for &(refused, text, expected) in REFUSALS {
        let shown = shown(&places, refusal(alloc, refused, text)?);
        holds(shown == expected, text)?;
    }
    Ok(())
}

/// The place of a thing that the table lists.
fn place_listed(places: &Places, number: usize) -> Option<Loc> {
    places.0.get(number)?.loc
}

#[test]
fn a_definition_is_not_the_other_one(rt: HostRuntime) -> Result<(), Fail> {
    let alloc = rt.alloc();
    let places = places_of_text(alloc)?;
    let ty = entity_type(alloc, "N::F")?.with_loc(place_listed(&places, 9));
    let shown = shown(&places, SchemaError::DuplicateEntityType(ty));
    holds(shown == ("\"F\"", "?"), "N::F")
}
