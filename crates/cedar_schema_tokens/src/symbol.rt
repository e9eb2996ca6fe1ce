//! Symbols of one character.

ghost use Rattle.std.specs.Prelude.{◌≡◌};
ghost use Rattle.cedar_schema_tokens.specs.Lexical as spec;

use crate::token::Symbol;

/// The symbol that the byte is by itself.
pub(crate) fn symbol_of(byte: u8) -> Option<Symbol>
    ensures { result ≡ spec.symbol_of byte }
{
    match byte {
        b':' => Some(Symbol::Colon),
        b',' => Some(Symbol::Comma),
        b';' => Some(Symbol::Semicolon),
        b'?' => Some(Symbol::Question),
        b'=' => Some(Symbol::Equals),
        b'<' => Some(Symbol::Less),
        b'>' => Some(Symbol::Greater),
        b'[' => Some(Symbol::OpenBracket),
        b']' => Some(Symbol::CloseBracket),
        b'{' => Some(Symbol::OpenBrace),
        b'}' => Some(Symbol::CloseBrace),
        b'(' => Some(Symbol::OpenParenthesis),
        b')' => Some(Symbol::CloseParenthesis),
        b'@' => Some(Symbol::At),
        _ => None,
    }
}
