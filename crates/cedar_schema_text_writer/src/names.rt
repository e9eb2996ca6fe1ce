//! Names that are written.

ghost use Rattle.std.specs.List.{list_all};
ghost use Rattle.std.specs.Prelude.{◌≡◌, ◌∷◌, [], OnOk};
ghost use Rattle.cedar_ast.specs.Identifier.{begins_identifier, is_identifier_byte, is_identifier_start, is_identifier_text};
ghost use Rattle.cedar_ast.specs.Words.{name_of};
ghost use Rattle.cedar_schema_text_writer.specs.Names.{is_among, policy_words};
ghost use Rattle.cedar_schema_text_writer.specs.Pieces.{Adds, path_pieces};
ghost use Rattle.cedar_schema_text_writer.specs.TypeLayout.{name_piece};

use crate::pieces::put_quoted;
use cedar_ast::{InternalName, M};

/// Whether a byte may begin an identifier: an ASCII letter or `_`.
fn is_start(byte: u8) -> bool
    ensures { result ≡ is_identifier_start byte }
{
    byte.is_ascii_alphabetic() || byte == b'_'
}

/// Whether a byte may stand in an identifier: an ASCII letter, a digit or `_`.
fn is_inner(byte: u8) -> bool
    ensures { result ≡ is_identifier_byte byte }
{
    is_start(byte) || byte.is_ascii_digit()
}

/// Whether the first byte of a text may begin an identifier.
fn has_start(text: &[u8]) -> bool
    ensures { result ≡ begins_identifier text.now }
{
    match text {
        [] => false,
        [first, ..] => is_start(*first),
    }
}

/// Whether each byte of a text may stand in an identifier.
fn has_inner(text: &[u8]) -> bool
    ensures { result ≡ list_all is_identifier_byte text.now }
{
    text.iter().all(|byte| is_inner(*byte))
}

/// Whether a text is an identifier.
fn is_identifier(text: &[u8]) -> bool
    ensures { result ≡ is_identifier_text text.now }
{
    has_start(text) && has_inner(text)
}

/// Whether a text is a word that Cedar's policies reserve.
fn is_policy_word(text: &str) -> bool
    ensures { result ≡ is_among text.now policy_words }
{
    matches!(
        text,
        "true" | "false" | "if" | "then" | "else" | "in" | "is" | "like" | "has" | "__cedar"
    )
}

/// Writes the id of an action or the name of an attribute: as an identifier where it is one that
/// policies don't reserve, else as a quoted text.
pub(crate) fn put_name(out: &mut String, text: &str) -> M<()>
    ensures { OnOk result (Adds out.old out.new (name_piece text.now ∷ [])) }
{
    if is_identifier(text.as_bytes()) && !is_policy_word(text) {
        out.push_str(text)?;
        Ok(())
    } else {
        put_quoted(out, text)
    }
}

/// Writes a name: its identifiers, with `::` between them.
pub(crate) fn put_path(out: &mut String, name: &InternalName) -> M<()>
    ensures { OnOk result (Adds out.old out.new (path_pieces (name_of name.now))) }
{
    out.write(name)?;
    Ok(())
}
