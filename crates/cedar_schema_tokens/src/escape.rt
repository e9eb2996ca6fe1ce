//! Escapes of quoted texts.

ghost use Rattle.std.specs.Char.{digit_value};
ghost use Rattle.std.specs.Option.{option_map};
ghost use Rattle.std.specs.Prelude.{◌≡◌, ◌≤◌};
ghost use Rattle.cedar_schema_tokens.specs.Lexical as spec;
ghost use Rattle.cedar_schema_tokens.specs.Reads.{char_and_rest};

use crate::steps::{Class, byte_at, first, skip, split_run};

/// The character that a letter stands for behind a backslash.
fn simple(letter: u8) -> Option<char>
    ensures { result ≡ spec.simple letter }
{
    match letter {
        b'n' => Some('\n'),
        b'r' => Some('\r'),
        b't' => Some('\t'),
        b'0' => Some('\0'),
        b'\\' => Some('\\'),
        b'"' => Some('"'),
        b'\'' => Some('\''),
        _ => None,
    }
}

/// The value of a digit in base 36, and 36 of another byte.
fn digit(byte: u8) -> u32
    ensures value { result ≡ digit_value byte }
    ensures bound { result ≤ 36 }
{
    char::from(byte).to_digit(36).unwrap_or(36)
}

/// The character whose code the digits spell, or None where there is no such character.
fn char_of(digits: &[u8]) -> Option<char>
    ensures { result ≡ spec.char_of digits.now }
{
    let mut code = 0;
    for byte in digits {
        code = 16 * code + digit(*byte);
        if code > 0x10_FFFF {
            return None;
        }
    }
    char::from_u32(code)
}

/// Behind `\x`: two hexadecimal digits, up to 7F.
fn byte_escape(s: &str) -> Option<(char, &str)>
    ensures { option_map char_and_rest result ≡ spec.byte_escape s.now }
{
    let (high, low) = (byte_at(s, 0), byte_at(s, 1));
    if !high.is_ascii_hexdigit() || !low.is_ascii_hexdigit() {
        return None;
    }
    let code = 16 * digit(high) + digit(low);
    if code < 128 {
        Some((char::from(code as u8), skip(s, 2)))
    } else {
        None
    }
}

/// Behind `\u{`: one to six hexadecimal digits of a character's code, and `}`.
fn code_escape(s: &str) -> Option<(char, &str)>
    ensures { option_map char_and_rest result ≡ spec.code_escape s.now }
{
    let (digits, rest) = split_run(s, Class::Hex);
    if digits.is_empty() || digits.len() > 6 || first(rest) != b'}' {
        return None;
    }
    let c = char_of(digits.as_bytes())?;
    Some((c, skip(rest, 1)))
}

/// The escape at the front: the character that it stands for, and the rest.
pub(crate) fn escape(s: &str) -> Option<(char, &str)>
    ensures { option_map char_and_rest result ≡ spec.escape s.now }
{
    if first(s) != b'\\' {
        return None;
    }
    let letter = byte_at(s, 1);
    if letter == b'x' {
        return byte_escape(skip(s, 2));
    }
    if letter == b'u' {
        return if byte_at(s, 2) == b'{' {
            code_escape(skip(s, 3))
        } else {
            None
        };
    }
    match simple(letter) {
        Some(c) => Some((c, skip(s, 2))),
        None => None,
    }
}
