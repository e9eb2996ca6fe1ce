//! Identifiers of words that are known to be identifiers.

ghost use Rattle.std.specs.Prelude.{◌≡◌, IfOk, string_bytes};
ghost use Rattle.cedar_ast.specs.Words.{IsIdentifier, id_text};

use crate::id::Id;
use crate::memory::M;
use std::alloc::Global;

/// The identifier that a text spells.
pub(crate) fn spelled(text: String) -> Id
    requires { IsIdentifier (string_bytes text) }
    ensures { id_text result ≡ string_bytes text }
{
    match Id::new(text) {
        Some(id) => id,
        None => unreachable!(),
    }
}

/// The identifier that a text spells. Memory may run out.
pub fn identifier(alloc: Global, text: &str) -> M<Id>
    requires { IsIdentifier text.now }
    ensures { IfOk result (λ id. id_text id ≡ text.now) }
{
    Ok(spelled(String::from_str(alloc, text)?))
}
