//! Values, written as texts.

ghost use Rattle.std.specs.Prelude.{◌≡◌, [], IfOk, IfErr, string_bytes};
ghost use Rattle.cedar_json_writer.specs.Words.{IsFlawOf, json_tokens, pretty, tree_of, value_document, value_expr, value_flaws};

use crate::fault::WriteFault;
use crate::text::text_of;
use crate::values::write_value;
use cedar_ast::Value;
use json::Pretty;
use std::alloc::Global;

/// The text of a value as JSON (Cedar reference, entities and context in JSON): a truth value, a
/// whole number, a text, an array of the elements of a set, an object of the attributes of a
/// record, and for a reference to an entity or a call an object with the key `__entity` or
/// `__extn`. It is laid out as the text of a fragment is.
///
/// It is refused as `Unwritable` exactly where there is a call of other than one argument in it, or
/// a record whose one key is `__entity` or `__extn`. Memory may run out.
pub fn value_to_json(alloc: Global, value: &Value) -> Result<String, WriteFault>
    ensures text { IfOk result (λ text. string_bytes text
        ≡ pretty (json_tokens (value_document (tree_of (value_expr value.now))))) }
    ensures writable { IfOk result (λ _. value_flaws (tree_of (value_expr value.now)) ≡ []) }
    ensures fault { IfErr result (IsFlawOf (value_flaws (tree_of (value_expr value.now)))) }
{
    let mut out = Pretty::new(alloc);
    write_value(alloc, &mut out, value.expr())?;
    Ok(text_of(out))
}
