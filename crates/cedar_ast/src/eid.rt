//! Ids of entities: any texts.

ghost use Rattle.std.specs.Prelude.{◌≡◌, IfOk};
ghost use Rattle.cedar_ast.specs.Eid.{eid_text};

use crate::leading::{byte_at, leading_number};
use crate::memory::M;
use crate::with_leading::Leading;
use std::cmp::Ordering;

/// An entity's id: any text. Ids order by their bytes.
#[derive(Debug, Drop, PartialEq, Eq, PartialOrd, Ord, Hash)]
pub struct Eid(pub String);

impl Eid {
    /// The id's text.
    pub fn as_str(&self) -> &str
        ensures { result.now ≡ eid_text self.now }
    {
        self.0.as_str()
    }

    /// An equal id. Out of memory is the only refusal.
    pub fn clone(&self) -> M<Self>
        ensures { IfOk result (λ copy. eid_text copy ≡ eid_text self.now) }
    {
        Ok(Eid(self.0.clone()?))
    }
}

impl Leading for Eid {
    ghost use Rattle.cedar_ast.specs.Words.{eid_text, leading_bytes};

    ghost leading_of = { λ eid. leading_bytes 8 (eid_text eid) };

    fn leading(&self) -> u64 {
        let text = self.0.as_str().as_bytes();
        leading_number(text, byte_at(text, 7))
    }

    fn order_by_leading(leading: u64, other: u64) -> Option<Ordering> {
        if leading == other {
            return None;
        }
        Some(leading.cmp(&other))
    }
}
