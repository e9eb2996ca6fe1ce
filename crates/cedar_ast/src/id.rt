//! Identifiers: the parts of names.

ghost use Rattle.std.specs.Prelude.{◌≡◌, ◌↔◌, IsTrue, IsSome, IfSome, IfOk, IfErr, string_bytes};
ghost use Rattle.std.specs.List.{list_all};
ghost use Rattle.std.specs.Option.{MatchOption};
ghost use Rattle.cedar_ast.specs.Identifier.{IsIdentifier, begins_identifier, is_identifier_start, is_identifier_byte, reserved_word};
ghost use Rattle.cedar_ast.specs.NameFault.{IsNameFault};
ghost use Rattle.cedar_ast.specs.Stops.{StopsAt};

use crate::memory::M;
use crate::name_fault::NameFault;
use std::alloc::Global;
use std::fmt;

/// The word that no declared name may hold.
const RESERVED: &str = "__cedar";

/// An identifier: a nonempty text of ASCII letters, digits and `_` that does not begin with a
/// digit. The reserved word `__cedar` is one too.
#[derive(Debug, Drop, PartialEq, Eq, PartialOrd, Ord, Hash)]
pub struct Id {
    text: String,
    ghost identifier: { IsIdentifier (string_bytes text) },
}

/// Whether a byte may begin an identifier: an ASCII letter or `_`.
pub(crate) fn is_start(byte: u8) -> bool
    ensures { result ≡ is_identifier_start byte }
{
    byte.is_ascii_alphabetic() || byte == b'_'
}

/// Whether a byte may stand in an identifier: an ASCII letter, a digit or `_`.
pub(crate) fn is_inner(byte: u8) -> bool
    ensures { result ≡ is_identifier_byte byte }
{
    is_start(byte) || byte.is_ascii_digit()
}

/// Whether the first byte of a text may begin an identifier.
fn has_start(text: &[u8]) -> bool
    ensures { result ≡ begins_identifier text.now }
{
    match text {
        [] => false,
        [first, ..] => is_start(*first),
    }
}

/// Whether each byte of a text may stand in an identifier.
fn has_inner(text: &[u8]) -> bool
    ensures { result ≡ list_all is_identifier_byte text.now }
{
    text.iter().all(|byte| is_inner(*byte))
}

/// Whether a text is an identifier.
fn is_identifier(text: &str) -> bool
    ensures { IsTrue result ↔ IsIdentifier text.now }
{
    has_start(text.as_bytes()) && has_inner(text.as_bytes())
}

/// The byte at which a text stops being an identifier, or None where it is one.
fn stop(text: &[u8]) -> Option<usize>
    ensures { MatchOption result (IsIdentifier text.now) (StopsAt IsIdentifier text.now) }
{
    if !has_start(text) {
        return Some(0);
    }
    for (at, byte) in text.iter().enumerate() {
        if !is_inner(*byte) {
            return Some(at);
        }
    }
    None
}

impl Id {
    ghost use Rattle.cedar_ast.specs.Id.{id_text};

    /// The identifier that a text spells, or None where it spells none.
    pub fn new(text: String) -> Option<Self>
        ensures valid { IsSome result ↔ IsIdentifier (string_bytes text) }
        ensures text { IfSome result (λ id. id_text id ≡ string_bytes text) }
    {
        if is_identifier(text.as_str()) {
            Some(Id { text })
        } else {
            None
        }
    }

    /// The identifier that a text spells. It is refused exactly where it spells none, with the byte
    /// at which it stops being one, or out of memory.
    pub fn from_str(alloc: Global, text: &str) -> Result<Self, NameFault>
        ensures id { IfOk result (λ id. id_text id ≡ text.now) }
        ensures fault { IfErr result (IsNameFault IsIdentifier (λ _. ⊥) (λ _. ⊥) text.now) }
    {
        match stop(text.as_bytes()) {
            Some(at) => Err(NameFault::NotAName(at)),
            None => Ok(Id {
                text: String::from_str(alloc, text)?,
            }),
        }
    }

    /// The identifier's text.
    pub fn as_str(&self) -> &str
        ensures text { result.now ≡ id_text self.now }
        ensures identifier { IsIdentifier result.now }
    {
        self.text.as_str()
    }

    /// Whether this is the reserved word `__cedar`.
    pub fn is_reserved(&self) -> bool
        ensures { IsTrue result ↔ (id_text self.now ≡ reserved_word) }
    {
        self.text.as_str() == RESERVED
    }

    /// An equal identifier. Out of memory is the only refusal.
    pub fn clone(&self) -> M<Self>
        ensures { IfOk result (λ copy. id_text copy ≡ id_text self.now) }
    {
        Ok(Id {
            text: self.text.clone()?,
        })
    }
}

impl fmt::Display for Id {
    ghost use Rattle.std.specs.Prelude.{Some};
    ghost use Rattle.cedar_ast.specs.Id.{id_text};

    ghost output = { λ id. Some (id_text id) };

    fn fmt<W: fmt::Write>(&self, f: &mut fmt::Formatter<W>) -> fmt::Result {
        f.write_str(self.text.as_str())
    }
}
