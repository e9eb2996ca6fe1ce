//! Fragments, read from texts.

ghost use Rattle.std.specs.Prelude.{◌≡◌, ◌≢◌, Some, IfErr, IfOk, IsSomeAnd, MatchResult};
ghost use Rattle.json.specs.Json.{document};
ghost use Rattle.json.specs.Strict.{HasUniqueKeys};
ghost use Rattle.json.specs.Value.{value_view};
ghost use Rattle.cedar_json.specs.Words.{Describes, IsFaultOf, IsRepeatIn, IsTrueOf, WrittenFragment, fragment_of, written_fragment};

use crate::fault::{Fault, FaultKind, Step};
use crate::from_json_owned::take_whole;
use crate::place_table::ValuePlaces;
use crate::repeated_keys::{Repeat, check_keys};
use crate::stop::stop_of;
use crate::value_place::{Place, faulty_key, place_at};
use cedar_schema_ast::json_schema::{Fragment, RawName};
use json::{Error, Scratch, Value};
use std::alloc::Global;

/// Why no fragment is read from a text (Cedar reference, JSON schema format).
#[derive(Debug, Drop)]
pub enum JsonSchemaFault {
    /// The text has 2^32 - 1 bytes or more.
    TooLong,
    /// The bytes are no UTF-8.
    NotUtf8 {
        /// How many of them are UTF-8: all those before the first that isn't part of a character.
        valid_up_to: usize,
    },
    /// The text is no JSON, or nests deeper than 128 levels.
    NotJson {
        /// How many bytes stand before what can't stand where it does: all of them where the text
        /// ends too early.
        up_to: usize,
        /// Whether an array or an object begins there that is nested too deep.
        too_deep: bool,
    },
    /// A key comes twice in one object, after unescaping.
    TwiceInObject {
        /// The object, located at the second key.
        at: Place,
        /// The index of a member whose key is that of an earlier member too.
        member: usize,
    },
    /// A value of the text isn't as the format wants it.
    OutOfShape {
        /// The value.
        at: Place,
        /// What is wrong with the value.
        fault: FaultKind,
    },
    /// Out of memory.
    Memory,
}

/// The refusal of a text that is no JSON.
fn not_json(alloc: Global, text: &str) -> JsonSchemaFault
    requires { document text.now ≡ None }
    ensures { IsFaultOf text.now result }
{
    match stop_of(alloc, text) {
        Ok(stop) => JsonSchemaFault::NotJson {
            up_to: stop.up_to,
            too_deep: stop.too_deep,
        },
        Err(_) => JsonSchemaFault::Memory,
    }
}

/// The refusal of a text with this value, in which the object to which the steps lead has the key
/// of the member twice.
fn repeat_at(
    alloc: Global,
    text: &str,
    source: u32,
    value: &Value<'_>,
    steps: Vec<Step>,
    member: usize,
) -> JsonSchemaFault
    requires { IsSomeAnd (document text.now) (λ j.
        (¬ HasUniqueKeys j) × IsRepeatIn (Repeat.At steps member) j) }
    ensures { IsFaultOf text.now result }
{
    let Ok(places) = ValuePlaces::of(alloc, text, source) else {
        return JsonSchemaFault::Memory;
    };
    match place_at(alloc, value, places.cursor(), steps, Some(member)) {
        Ok(at) => JsonSchemaFault::TwiceInObject { at, member },
        Err(_) => JsonSchemaFault::Memory,
    }
}

/// The refusal of a text in which an object has a key twice.
fn twice_in_object(alloc: Global, text: &str, source: u32) -> JsonSchemaFault
    requires { IsSomeAnd (document text.now) (λ j. ¬ HasUniqueKeys j) }
    ensures { IsFaultOf text.now result }
{
    let mut scratch = Scratch::new(alloc);
    let Ok(value) = Value::parse(alloc, text, &mut scratch) else {
        return JsonSchemaFault::Memory;
    };
    match check_keys(alloc, &value) {
        Ok(()) => unreachable!(),
        Err(Repeat::At(steps, member)) => repeat_at(alloc, text, source, &value, steps, member),
        Err(Repeat::Memory) => JsonSchemaFault::Memory,
    }
}

/// The refusal of a text whose value isn't as the format wants it, with the steps to what is wrong.
///
/// The value went while it was read, so it is parsed once more for its place.
fn out_of_shape(
    alloc: Global,
    text: &str,
    places: &ValuePlaces,
    steps: Vec<Step>,
    fault: FaultKind,
) -> JsonSchemaFault
    requires { IsSomeAnd (document text.now) (λ j.
        (fragment_of j ≡ None) × IsTrueOf (Fault.At steps fault) j) }
    ensures { IsFaultOf text.now result }
{
    let mut scratch = Scratch::new(alloc);
    let Ok(value) = Value::parse(alloc, text, &mut scratch) else {
        return JsonSchemaFault::Memory;
    };
    match place_at(alloc, &value, places.cursor(), steps, faulty_key(fault)) {
        Ok(at) => JsonSchemaFault::OutOfShape { at, fault },
        Err(_) => JsonSchemaFault::Memory,
    }
}

/// The fragment that the value of a text describes.
fn fragment_in(
    alloc: Global,
    text: &str,
    source: u32,
    value: Value<'_>,
) -> Result<Fragment<RawName>, JsonSchemaFault>
    requires { document text.now ≡ Some (value_view value) }
    ensures { MatchResult result
        (λ it. fragment_of (value_view value.entry) ≡ Some (written_fragment it))
        (λ fault. IsFaultOf text.now fault
        × (fault ≢ JsonSchemaFault.Memory → fragment_of (value_view value.entry) ≡ None)) }
{
    let Ok(places) = ValuePlaces::of(alloc, text, source) else {
        return Err(JsonSchemaFault::Memory);
    };
    match take_whole(alloc, value, places.cursor()) {
        Ok(namespaces) => Ok(Fragment(namespaces)),
        Err(Fault::At(steps, fault)) => Err(out_of_shape(alloc, text, &places, steps, fault)),
        Err(Fault::Memory) => Err(JsonSchemaFault::Memory),
    }
}

/// The fragment that a text describes in Cedar's JSON schema format.
///
/// A text is refused exactly where it describes none, each time with a reason that is true of it:
/// `TooLong` from 2^32 - 1 bytes on, `NotJson` where it is no JSON or nests deeper than 128 levels,
/// `TwiceInObject` where some object has a key twice, and `OutOfShape` with the place of a value
/// and with what is wrong with it. Memory may run out.
pub fn fragment_from_json(
    alloc: Global,
    text: &str,
    source: u32,
) -> Result<Fragment<RawName>, JsonSchemaFault>
    ensures fragment { IfOk result (λ it. Describes text.now (written_fragment it)) }
    ensures fault { IfErr result (IsFaultOf text.now) }
    ensures exact { IfErr result (λ fault. fault ≢ JsonSchemaFault.Memory
        → (it : WrittenFragment) → Describes text.now it → ⊥) }
{
    if text.len() >= u32::MAX as usize {
        return Err(JsonSchemaFault::TooLong);
    }
    let mut scratch = Scratch::new(alloc);
    match Value::parse_strict(alloc, text, &mut scratch) {
        Ok(value) => fragment_in(alloc, text, source, value),
        Err(Error::Invalid) => Err(not_json(alloc, text)),
        Err(Error::DuplicateKey) => Err(twice_in_object(alloc, text, source)),
        Err(Error::OutOfMemory | Error::TooLong) => Err(JsonSchemaFault::Memory),
    }
}

/// The fragment that bytes describe in Cedar's JSON schema format: as `fragment_from_json` of the
/// text that they are. Bytes that are no UTF-8 are refused with `NotUtf8`.
pub fn fragment_from_slice(
    alloc: Global,
    bytes: &[u8],
    source: u32,
) -> Result<Fragment<RawName>, JsonSchemaFault>
    ensures fragment { IfOk result (λ it. Describes bytes.now (written_fragment it)) }
    ensures fault { IfErr result (IsFaultOf bytes.now) }
    ensures exact { IfErr result (λ fault. fault ≢ JsonSchemaFault.Memory
        → (it : WrittenFragment) → Describes bytes.now it → ⊥) }
{
    if bytes.len() >= u32::MAX as usize {
        return Err(JsonSchemaFault::TooLong);
    }
    match std::str::from_utf8(bytes) {
        Ok(text) => fragment_from_json(alloc, text, source),
        Err(fault) => Err(JsonSchemaFault::NotUtf8 {
            valid_up_to: fault.valid_up_to(),
        }),
    }
}
