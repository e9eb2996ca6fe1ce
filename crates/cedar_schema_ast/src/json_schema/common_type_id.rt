//! Base names of common types.

ghost use Rattle.std.specs.Prelude.{◌≡◌, ◌↔◌, IsTrue, IsSome, IfSome, IfErr, IfOk};
ghost use Rattle.cedar_ast.specs.Words.{IsIdentifier, IsNameFault, reserved_word, unreserved_id_text};
ghost use Rattle.cedar_schema_ast.specs.ReservedTypeWord.{IsReservedTypeWord};

use cedar_ast::{M, NameFault, UnreservedId};
use std::alloc::Global;
use std::fmt;

/// The base name of a common type: an identifier that names no type of Cedar's own.
#[derive(Debug, Drop, PartialEq, Eq, PartialOrd, Ord, Hash)]
pub struct CommonTypeId {
    id: UnreservedId,
    ghost common: { ¬ IsReservedTypeWord (unreserved_id_text id) },
}

/// Whether a text is a word that names a type of Cedar's own.
#[tactic(auto, using(crate::proofs::ReservedWords::reserved_from_cases))]
fn is_reserved_word(text: &str) -> bool
    ensures { IsTrue result ↔ IsReservedTypeWord text.now }
{
    matches!(
        text,
        "Bool" | "Boolean" | "Entity" | "Extension" | "Long" | "Record" | "Set" | "String"
    )
}

impl CommonTypeId {
    ghost use Rattle.cedar_schema_ast.specs.CommonTypeId.{common_type_text};

    /// The base name, or None exactly for `Bool`, `Boolean`, `Entity`, `Extension`, `Long`,
    /// `Record`, `Set` and `String`, which name types of Cedar's own.
    pub fn new(id: UnreservedId) -> Option<Self>
        ensures valid { IsSome result ↔ ¬ IsReservedTypeWord (unreserved_id_text id) }
        ensures text { IfSome result (λ kept. common_type_text kept ≡ unreserved_id_text id) }
    {
        if is_reserved_word(id.as_str()) {
            None
        } else {
            Some(CommonTypeId { id })
        }
    }

    /// The base name that a text spells. It is refused exactly where it spells no identifier, with
    /// the byte at which it stops being one, or the reserved word `__cedar`, or the name of a type
    /// of Cedar's own, as `new` tells them, or out of memory.
    pub fn from_str(alloc: Global, text: &str) -> Result<Self, NameFault>
        ensures id { IfOk result (λ id. common_type_text id ≡ text.now) }
        ensures fault { IfErr result (IsNameFault IsIdentifier (λ text.
            text ≡ reserved_word) IsReservedTypeWord text.now) }
    {
        let id = UnreservedId::from_str(alloc, text)?;
        if is_reserved_word(id.as_str()) {
            Err(NameFault::NoCommonType)
        } else {
            Ok(CommonTypeId { id })
        }
    }

    /// The identifier, which names no type of Cedar's own.
    pub fn as_id(&self) -> &UnreservedId
        ensures text { unreserved_id_text result.now ≡ common_type_text self.now }
        ensures common { ¬ IsReservedTypeWord (unreserved_id_text result.now) }
    {
        &self.id
    }

    /// The identifier, which names no type of Cedar's own.
    pub fn into_id(self) -> UnreservedId
        ensures text { unreserved_id_text result ≡ common_type_text self }
        ensures common { ¬ IsReservedTypeWord (unreserved_id_text result) }
    {
        self.id
    }

    /// The identifier's text.
    pub fn as_str(&self) -> &str
        ensures text { result.now ≡ common_type_text self.now }
        ensures common { ¬ IsReservedTypeWord result.now }
    {
        self.id.as_str()
    }

    /// An equal base name. Out of memory is the only refusal.
    pub fn clone(&self) -> M<Self>
        ensures { IfOk result (λ copy. common_type_text copy ≡ common_type_text self.now) }
    {
        Ok(CommonTypeId {
            id: self.id.clone()?,
        })
    }
}

impl fmt::Display for CommonTypeId {
    ghost use Rattle.std.specs.Prelude.{Some};
    ghost use Rattle.cedar_schema_ast.specs.CommonTypeId.{common_type_text};

    ghost output = { λ id. Some (common_type_text id) };

    fn fmt<W: fmt::Write>(&self, f: &mut fmt::Formatter<W>) -> fmt::Result {
        self.id.fmt(f)
    }
}
