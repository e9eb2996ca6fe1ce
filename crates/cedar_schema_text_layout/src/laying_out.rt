//! Texts, laid out.

ghost use Rattle.std.specs.Prelude.{IfErr, IfOk, string_bytes};
ghost use Rattle.cedar_schema_text_layout.specs.Relaid.{IsLayout};
ghost use Rattle.cedar_schema_text_layout.specs.Words.{HasNoTokens, IsRefused};

use crate::printing::printed;
use crate::relaying::relaid;
use cedar_schema_tokens::{TokenFault, read_spelled};
use std::alloc::Global;

/// The layout of the text of this number.
///
/// It has the tokens of the text as they are spelled, and its comments, in order. Only brackets
/// around one item, commas before closing brackets and `=` before the attributes of an entity type
/// may be other ones.
pub fn lay_out(alloc: Global, text: &str, source: u32) -> Result<String, TokenFault>
    ensures layout { IfOk result (λ layout. IsLayout text.now (string_bytes layout)) }
    // What is refused has the fault that is named, at the place that is named.
    ensures fault { IfErr result (IsRefused source text.now) }
    // But for its length, it is no tokens.
    ensures refused { IfErr result (HasNoTokens source text.now) }
{
    let pieces = read_spelled(alloc, text, source)?;
    match relaid(alloc, &pieces) {
        Ok(pieces) => match printed(alloc, &pieces) {
            Ok(text) => Ok(text),
            Err(_) => Err(TokenFault::Memory),
        },
        Err(_) => Err(TokenFault::Memory),
    }
}
