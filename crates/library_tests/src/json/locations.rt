//! Where the declarations, attributes, types and references of a fragment were written.

use cedar_ast::M;
use cedar_json::fragment_from_json;
use checked::same;
use std::alloc::Global;
use std::fmt::Write;
use std::test::Fail;

/// A text with something of each kind that has a location.
const TEXT: &str = "{\"N\" : {\n  \"annotations\": {\"doc\": \"ä\\\"→\"},
  \"commonTypes\": {\"T\": {\"type\":\"Set\",\"element\":{\"type\": \"S\\u0053\"}}},
  \"entityTypes\": {
    \"D\": {\"enum\": [\"x\"]},
    \"E\": {\"memberOfTypes\": [\"F\" , \"N::G\"], \"tags\": {\"type\": \"Long\"}, \"shape\":
      {\"type\": \"Record\", \"attributes\": {\"ä\\n\": {\"type\": \"Entity\", \"name\": \"H\"}}}}
  },
  \"actions\": {\"→\": { \"memberOf\": [{\"id\": \"b\", \"type\": \"B\"}], \"appliesTo\": {
    \"principalTypes\": [\"P\"], \"resourceTypes\": [\"R\"],
    \"context\": {\"type\":\"EntityOrCommon\",\"name\":\"C\"}}}}}}";

/// What stands at the places of what is read of it, in the order of the fields that hold it.
const PIECES: &str = r#""N"
"S\u0053"
{"type": "S\u0053"}
{"type":"Set","element":{"type": "S\u0053"}}
"T"
"D"
"F"
"N::G"
"H"
{"type": "Entity", "name": "H"}
"ä\n"
{"type": "Record", "attributes": {"ä\n": {"type": "Entity", "name": "H"}}}
{"type": "Long"}
"E"
"P"
"R"
"C"
{"type":"EntityOrCommon","name":"C"}
"B"
{"id": "b", "type": "B"}
"→"
{ "memberOf": [{"id": "b", "type": "B"}], "appliesTo": {
    "principalTypes": ["P"], "resourceTypes": ["R"],
    "context": {"type":"EntityOrCommon","name":"C"}}}
{
  "annotations": {"doc": "ä\"→"},
  "commonTypes": {"T": {"type":"Set","element":{"type": "S\u0053"}}},
  "entityTypes": {
    "D": {"enum": ["x"]},
    "E": {"memberOfTypes": ["F" , "N::G"], "tags": {"type": "Long"}, "shape":
      {"type": "Record", "attributes": {"ä\n": {"type": "Entity", "name": "H"}}}}
  },
  "actions": {"→": { "memberOf": [{"id": "b", "type": "B"}], "appliesTo": {
    "principalTypes": ["P"], "resourceTypes": ["R"],
    "context": {"type":"EntityOrCommon","name":"C"}}}}}
"#;

/// The piece of the text whose first byte and the one behind its last begin another.
fn piece(place: &str) -> Option<&'static str> {
    let (start, rest) = place.split_once(", stop: ")?;
    let (stop, _) = rest.split_once(" }")?;
    TEXT.get(start.parse::<usize>().ok()?..stop.parse::<usize>().ok()?)
}

/// What stands in the text at the places that are shown in another, each on a line of its own.
fn pieces(alloc: Global, shown: &str) -> M<String> {
    let mut pieces = String::new(alloc);
    for place in shown.split("Loc { source: 5, start: ").skip(1) {
        write!(pieces, "{}\n", piece(place).unwrap_or("?"))?;
    }
    Ok(pieces)
}

/// What stands at the places of what is read of the text.
fn shown_pieces(alloc: Global) -> Result<String, Fail> {
    match fragment_from_json(alloc, TEXT, 5) {
        Ok(fragment) => Ok(pieces(alloc, format!(in alloc; "{fragment:?}")?.as_str())?),
        Err(_) => Err(Fail::from("not read")),
    }
}

#[test]
fn each_thing_has_its_place(rt: HostRuntime) -> Result<(), Fail> {
    same("the places", shown_pieces(rt.alloc())?.as_str(), PIECES)
}
