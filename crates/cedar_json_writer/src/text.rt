//! Fragments, written as texts.

ghost use Rattle.std.specs.Prelude.{◌≡◌, ◌<◌, IfOk, IfErr, length, string_bytes};
ghost use Rattle.std.specs.Str.{IsUtf8};
ghost use Rattle.json.specs.Lex.{tokens};
ghost use Rattle.cedar_json_writer.specs.Words.{Describes, IsFlawOf, IsWritable, fragment_document, fragment_flaws, json_tokens, pretty, too_long, written_fragment};

use crate::fault::{Unwritable, WriteFault};
use crate::written::Written;
use cedar_schema_ast::json_schema::{Fragment, RawName};
use json::{Pretty, Scratch, is_valid};
use std::alloc::Global;

/// The text that was written.
pub(crate) fn text_of(out: Pretty) -> String
    ensures tokens { tokens (string_bytes result) ≡ out }
    ensures layout { string_bytes result ≡ pretty out }
    ensures utf8 { IsUtf8 (string_bytes result) }
{
    String::from_utf8(out.into_inner()).unwrap()
}

/// The text of a fragment in Cedar's JSON schema format (Cedar reference, JSON schema format).
/// Each item and member stands on a line of its own, two blanks deeper for each level, and there is
/// no line end at the end. Namespaces, declarations and attributes stand in the order of their
/// names. A field whose value is the one that its absence means is left out.
///
/// The text describes the same fragment, locations apart, and `fragment_from_json` reads it back
/// where it is shorter than 2^32 - 1 bytes. A fragment is refused as `Unwritable` exactly where the
/// format can't say it, with what of it. Memory may run out.
pub fn fragment_to_json(alloc: Global, fragment: &Fragment<RawName>) -> Result<String, WriteFault>
    ensures text { IfOk result (λ text. string_bytes text
        ≡ pretty (json_tokens (fragment_document (written_fragment fragment.now)))) }
    ensures writable { IfOk result (λ _. IsWritable (written_fragment fragment.now)) }
    ensures described { IfOk result (λ text. length (string_bytes text) < too_long
        → Describes (string_bytes text) (written_fragment fragment.now)) }
    ensures fault { IfErr result (IsFlawOf (fragment_flaws (written_fragment fragment.now))) }
{
    let mut out = Pretty::new(alloc);
    fragment.0.write(alloc, &mut out)?;
    let text = text_of(out);
    let mut scratch = Scratch::new(alloc);
    if is_valid(text.as_str(), &mut scratch)? {
        Ok(text)
    } else {
        Err(WriteFault::Unwritable(Unwritable::TooDeep))
    }
}
