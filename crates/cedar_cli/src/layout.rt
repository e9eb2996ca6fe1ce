//! Documents, laid out.

ghost use Rattle.std.specs.Prelude.{◌≡◌, ◌++◌, ◌<◌, IfOk, IfSome, None, Ok, OnOk, ◌∷◌, All, get_or, length, map, string_bytes};
ghost use Rattle.cedar_cli.specs.Words.{Bor, Global, HasNumbers, IsLayoutFile, IsPermutation, ItemsHaveNumbers, MembersHaveNumbers, SameTokens, Text, begin_array, begin_object, items_tokens, items_view, json_tokens, members_tokens, members_view, tokens, value_view};
ghost use Rattle.json.specs.declared.value.Value.{Value as Tree};
ghost use Rattle.json.specs.Json.{document as document_of};

use crate::shape::{Place, Shape};
use cedar_ast::{M, Memory};
use json::{Error, Pretty, Scratch, Token, Value};
use std::alloc::{AllocError, Global};

/// A member of an object.
type Member<'a> = (&'a str, Value<'a>);

/// Writes a value.
#[cycle(laying_out)]
fn write(pretty: &mut Pretty, shape: Shape, value: &Value<'_>) -> Result<(), AllocError>
    requires { HasNumbers (value_view value.now) }
    ensures { OnOk result (SameTokens pretty.new
        (pretty.old ++ json_tokens (value_view value.now))) }
{
    match value {
        Value::Null => pretty.token(Token::Null),
        Value::Bool(truth) => pretty.token(Token::Bool(*truth)),
        Value::Number(text) => pretty.token(Token::Number(text)),
        Value::String(text) => pretty.token(Token::String(text)),
        Value::Array(items) => write_items(pretty, shape.of_item(), items),
        Value::Object(members) => write_members(pretty, shape, members),
    }
}

/// Writes the items of an array.
#[cycle(laying_out)]
fn write_items(pretty: &mut Pretty, shape: Shape, items: &Vec<Value<'_>>) -> Result<(), AllocError>
    requires { ItemsHaveNumbers (items_view items.now.items) }
    ensures { OnOk result (SameTokens pretty.new
        (pretty.old ++ begin_array ∷ items_tokens (items_view items.now.items))) }
{
    pretty.token(Token::BeginArray)?;
    for item in items {
        write(pretty, shape, item)?;
    }
    pretty.token(Token::EndArray)
}

/// The places of the members of an object of a shape, in the order of the format.
fn in_order<'a>(shape: Shape, members: &Vec<Member<'a>>) -> Result<Vec<Place<'a>>, AllocError>
    ensures order { IfOk result (λ places. (d : Bor Text × Tree Global) → IsPermutation
        members.now.items (map (λ place. get_or members.now.items place.index d) places.items)) }
    ensures within { IfOk result (λ places.
        All (λ place. place.index < length members.now.items) places.items) }
{
    let mut places = Vec::new(*members.allocator());
    for (index, member) in members.iter().enumerate() {
        places.push(shape.place(member.0, index))?;
    }
    places.sort()?;
    Ok(places)
}

/// Writes the members of an object.
#[cycle(laying_out)]
fn write_members(
    pretty: &mut Pretty,
    shape: Shape,
    members: &Vec<Member<'_>>,
) -> Result<(), AllocError>
    requires { MembersHaveNumbers (members_view members.now.items) }
    ensures { OnOk result (SameTokens pretty.new
        (pretty.old ++ begin_object ∷ members_tokens (members_view members.now.items))) }
{
    pretty.token(Token::BeginObject)?;
    let order = in_order(shape, members)?;
    for place in &order {
        let member = &members[place.index];
        pretty.token(Token::Key(member.0))?;
        write(pretty, shape.of_member(member.0), &member.1)?;
    }
    pretty.token(Token::EndObject)
}

/// A document as text.
fn text_of(alloc: Global, document: &Value<'_>) -> Result<String, AllocError>
    requires { HasNumbers (value_view document.now) }
    ensures { IfOk result (λ text. SameTokens (tokens (string_bytes text))
        (json_tokens (value_view document.now))) }
{
    let mut pretty = Pretty::new(alloc);
    write(&mut pretty, Shape::Fragment, document)?;
    match String::from_utf8(pretty.into_inner()) {
        Ok(text) => Ok(text),
        Err(_) => unreachable!(),
    }
}

/// A schema's text, laid out and ended by a line end, or None where it is no JSON: two blanks a
/// level, each item and each member on a line of its own, the fields of each object in the order of
/// the format, and other members in the order of their keys. Nothing is left out.
pub(crate) fn laid_out(alloc: Global, text: &str) -> M<Option<String>>
    ensures layout { IfOk result (λ given. IfSome given (λ file.
        IsLayoutFile text.now (string_bytes file))) }
    ensures not_json { result ≡ Ok None → document_of text.now ≡ None }
{
    let mut scratch = Scratch::new(alloc);
    match Value::parse(alloc, text, &mut scratch) {
        Ok(document) => {
            let mut layout = text_of(alloc, &document)?;
            layout.push('\n')?;
            Ok(Some(layout))
        }
        Err(Error::Invalid) => Ok(None),
        Err(_) => Err(Memory),
    }
}
