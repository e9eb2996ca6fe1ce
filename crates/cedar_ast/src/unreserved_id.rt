//! Identifiers that are not reserved.

ghost use Rattle.std.specs.Prelude.{◌≡◌, ◌≢◌, ◌↔◌, IsSome, IfSome, IfOk, IfErr, string_bytes};
ghost use Rattle.cedar_ast.specs.Id.{id_text};
ghost use Rattle.cedar_ast.specs.Identifier.{IsIdentifier, reserved_word};
ghost use Rattle.cedar_ast.specs.NameFault.{IsNameFault};

use crate::id::Id;
use crate::memory::M;
use crate::name_fault::NameFault;
use std::alloc::Global;
use std::fmt;

/// An identifier that isn't the reserved word `__cedar`.
#[derive(Debug, Drop, PartialEq, Eq, PartialOrd, Ord, Hash)]
pub struct UnreservedId {
    id: Id,
    ghost unreserved: { id_text id ≢ reserved_word },
}

impl UnreservedId {
    ghost use Rattle.cedar_ast.specs.UnreservedId.{unreserved_id_text};

    /// The identifier that a text spells, or None where it spells none or the reserved word.
    pub fn new(text: String) -> Option<Self>
        ensures valid { IsSome result ↔ (IsIdentifier (string_bytes text)
            × (string_bytes text ≢ reserved_word)) }
        ensures text { IfSome result (λ id. unreserved_id_text id ≡ string_bytes text) }
    {
        let id = Id::new(text)?;
        if id.is_reserved() {
            None
        } else {
            Some(UnreservedId { id })
        }
    }

    /// The identifier that a text spells. It is refused exactly where it spells none, with the byte
    /// at which it stops being one, or the reserved word `__cedar`, or out of memory.
    pub fn from_str(alloc: Global, text: &str) -> Result<Self, NameFault>
        ensures id { IfOk result (λ id. unreserved_id_text id ≡ text.now) }
        ensures fault { IfErr result (IsNameFault IsIdentifier (λ text. text ≡ reserved_word) (λ _.
            ⊥) text.now) }
    {
        let id = Id::from_str(alloc, text)?;
        if id.is_reserved() {
            Err(NameFault::Reserved)
        } else {
            Ok(UnreservedId { id })
        }
    }

    /// The identifier, which isn't the reserved word.
    pub fn as_id(&self) -> &Id
        ensures text { id_text result.now ≡ unreserved_id_text self.now }
        ensures unreserved { id_text result.now ≢ reserved_word }
    {
        &self.id
    }

    /// The identifier's text.
    pub fn as_str(&self) -> &str
        ensures { result.now ≡ unreserved_id_text self.now }
    {
        self.id.as_str()
    }

    /// The identifier, which isn't the reserved word.
    pub fn into_id(self) -> Id
        ensures text { id_text result ≡ unreserved_id_text self }
        ensures unreserved { id_text result ≢ reserved_word }
    {
        self.id
    }

    /// An equal identifier. Out of memory is the only refusal.
    pub fn clone(&self) -> M<Self>
        ensures { IfOk result (λ copy. unreserved_id_text copy ≡ unreserved_id_text self.now) }
    {
        Ok(UnreservedId {
            id: self.id.clone()?,
        })
    }
}

impl fmt::Display for UnreservedId {
    ghost use Rattle.std.specs.Prelude.{Some};
    ghost use Rattle.cedar_ast.specs.UnreservedId.{unreserved_id_text};

    ghost output = { λ id. Some (unreserved_id_text id) };

    fn fmt<W: fmt::Write>(&self, f: &mut fmt::Formatter<W>) -> fmt::Result {
        self.id.fmt(f)
    }
}
