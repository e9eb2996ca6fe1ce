//! Names that texts spell.

ghost use Rattle.std.specs.Prelude.{◌≡◌, ◌≢◌, IfOk};
ghost use Rattle.cedar_ast.specs.Words.{IsIdentifier, plain_name, reserved_word, unreserved_id_text};
ghost use Rattle.schema_lines.specs.Samples.{bare_name};

use cedar_schema::below::{InternalName, M, Name, UnreservedId};
use std::alloc::Global;

/// The identifier that a text spells, which isn't the reserved word.
fn unreserved_id(alloc: Global, text: &str) -> M<UnreservedId>
    requires identifier { IsIdentifier text.now }
    requires unreserved { text.now ≢ reserved_word }
    ensures { IfOk result (λ id. unreserved_id_text id ≡ text.now) }
{
    Ok(UnreservedId::new(String::from_str(alloc, text)?).unwrap())
}

/// The name without a path that a text spells.
pub(crate) fn name(alloc: Global, text: &str) -> M<Name>
    requires identifier { IsIdentifier text.now }
    requires unreserved { text.now ≢ reserved_word }
    ensures { IfOk result (λ name. plain_name name ≡ bare_name text.now) }
{
    let id = unreserved_id(alloc, text)?.into_id();
    Ok(Name::new(InternalName::new(id, Vec::new(alloc), None)).unwrap())
}
