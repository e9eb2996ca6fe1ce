//! Names and identifiers that texts spell.

ghost use Rattle.std.specs.Prelude.{◌≡◌, ◌≢◌, Some, true, false, MatchResult};
ghost use Rattle.std.specs.List.{list_all};
ghost use Rattle.json.specs.Find.{as_str};
ghost use Rattle.json.specs.Json.{Json};
ghost use Rattle.cedar_json.specs.Words.{IsReadWhere, IsTrueOf, begins_identifier, is_identifier_byte, is_identifier_start, is_identifier_text, is_unreserved, plain_name, plain_name_in, raw_name, spelled_name, unreserved_id_text};

use crate::fault::{Fault, FaultKind};
use cedar_ast::{Loc, Name, NameFault, UnreservedId};
use cedar_schema_ast::json_schema::RawName;
use std::alloc::Global;

/// Whether a byte may begin an identifier: an ASCII letter or `_`.
fn is_start(byte: u8) -> bool
    ensures { result ≡ is_identifier_start byte }
{
    byte.is_ascii_alphabetic() || byte == b'_'
}

/// Whether the first byte of a text may begin an identifier.
fn has_start(text: &[u8]) -> bool
    ensures { result ≡ begins_identifier text.now }
{
    match text {
        [] => false,
        [first, ..] => is_start(*first),
    }
}

/// Whether each byte of a text may stand in an identifier: an ASCII letter, a digit or `_`.
fn has_inner(text: &[u8]) -> bool
    ensures { result ≡ list_all is_identifier_byte text.now }
{
    text.iter()
        .all(|byte| is_start(*byte) || byte.is_ascii_digit())
}

/// Whether a text is an identifier: a nonempty text of ASCII letters, digits and `_` that does not
/// begin with a digit.
pub(crate) fn is_identifier(text: &str) -> bool
    ensures { result ≡ is_identifier_text text.now }
{
    has_start(text.as_bytes()) && has_inner(text.as_bytes())
}

/// The name that a text spells, with the location.
pub(crate) fn read_name(alloc: Global, text: &str, loc: Option<Loc>) -> Result<RawName, Fault>
    ensures { IsReadWhere (λ j. as_str j ≡ Some text.now) (spelled_name text.now) raw_name result }
{
    match RawName::from_str(alloc, text) {
        Ok(name) => Ok(RawName::new(name.into_internal().with_loc(loc))),
        Err(fault) => match fault {
            NameFault::Memory(_) => Err(Fault::Memory),
            NameFault::NotAName(_) | NameFault::Reserved | NameFault::NoCommonType => {
                Err(Fault::here(alloc, FaultKind::NoName))
            }
        },
    }
}

/// The identifier other than the reserved word that a text spells.
pub(crate) fn read_unreserved_id(alloc: Global, text: &str) -> Result<UnreservedId, Fault>
    ensures { MatchResult result
        (λ id. (is_unreserved text.now ≡ true) × (unreserved_id_text id ≡ text.now))
        (λ fault. (fault ≢ Fault.Memory → is_unreserved text.now ≡ false)
        × ((j : Json) → as_str j ≡ Some text.now → IsTrueOf fault j)) }
{
    match UnreservedId::from_str(alloc, text) {
        Ok(id) => Ok(id),
        Err(fault) => match fault {
            NameFault::Memory(_) => Err(Fault::Memory),
            NameFault::Reserved => Err(Fault::here(alloc, FaultKind::ReservedId)),
            NameFault::NotAName(_) | NameFault::NoCommonType => {
                Err(Fault::here(alloc, FaultKind::NoId))
            }
        },
    }
}

/// The name that isn't reserved which a text spells.
pub(crate) fn read_plain_name(alloc: Global, text: &str) -> Result<Name, Fault>
    ensures { IsReadWhere (λ j. as_str j ≡ Some text.now)
        (plain_name_in text.now) plain_name result }
{
    match Name::from_str(alloc, text) {
        Ok(name) => Ok(name),
        Err(fault) => match fault {
            NameFault::Memory(_) => Err(Fault::Memory),
            NameFault::Reserved => Err(Fault::here(alloc, FaultKind::ReservedName)),
            NameFault::NotAName(_) | NameFault::NoCommonType => {
                Err(Fault::here(alloc, FaultKind::NoName))
            }
        },
    }
}
