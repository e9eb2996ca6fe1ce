//! Names read from text, byte by byte.

ghost use Rattle.std.specs.Prelude.{◌≡◌, IfOk, IfErr, None};
ghost use Rattle.cedar_ast.specs.Words.{IsNameFault, IsNameText, name_loc, name_of, name_text, reading_then};

use crate::id::{is_inner, is_start};
use crate::internal_name::InternalName;
use crate::name_fault::NameFault;
use crate::words::spelled;
use std::alloc::Global;
use std::mem;

/// What is read of a name so far.
#[derive(Clone, Copy)]
enum Reading {
    /// Nothing, or parts with `::` after each of them.
    Start,
    /// A part has begun.
    Inside,
    /// A part, and one `:` after it.
    Colon,
}

impl Reading {
    /// What is read with one byte more, or None where no name goes on so.
    fn then(self, byte: u8) -> Option<Self>
        ensures { result ≡ reading_then self byte }
    {
        match self {
            Reading::Start if is_start(byte) => Some(Reading::Inside),
            Reading::Inside if is_inner(byte) => Some(Reading::Inside),
            Reading::Inside if byte == b':' => Some(Reading::Colon),
            Reading::Colon if byte == b':' => Some(Reading::Start),
            _ => None,
        }
    }
}

impl InternalName {
    /// The name that a text spells: identifiers joined by `::`, with nothing else between them. It
    /// has no location. It is refused exactly where no name prints as the text, with the byte at
    /// which the text stops being a name, or out of memory.
    pub fn from_str(alloc: Global, text: &str) -> Result<Self, NameFault>
        ensures name { IfOk result (λ name. name_text (name_of name) ≡ text.now) }
        ensures loc { IfOk result (λ name. name_loc name ≡ None) }
        ensures fault { IfErr result (IsNameFault IsNameText (λ _. ⊥) (λ _. ⊥) text.now) }
    {
        let mut path = Vec::new(alloc);
        let mut part = String::new(alloc);
        let mut reading = Reading::Start;
        for (at, byte) in text.as_bytes().iter().enumerate() {
            match reading.then(*byte) {
                Some(next) => reading = next,
                None => return Err(NameFault::NotAName(at)),
            }
            match reading {
                Reading::Inside => part.push(*byte as char)?,
                Reading::Colon => {}
                Reading::Start => path.push(spelled(mem::replace(&mut part, String::new(alloc))))?,
            }
        }
        match reading {
            Reading::Inside => Ok(InternalName::new(spelled(part), path, None)),
            _ => Err(NameFault::NotAName(text.len())),
        }
    }
}
