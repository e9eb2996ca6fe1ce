//! Ids of entities, read as they stand in quotes.

ghost use Rattle.std.specs.Prelude.{◌≡◌, ◌<◌, ◌++◌, IfOk, IfErr, codes, string_bytes};
ghost use Rattle.cedar_ast.specs.Words.{IsNameFault, IsQuoted, after_backslash, code_digit, escape_then, escaped_text, first_digit, is_coded, last_whole, second_digit};

use crate::name_fault::NameFault;
use std::alloc::Global;

/// What is read of an id in quotes, behind the first of them.
#[derive(Clone, Copy)]
enum Escape {
    /// Whole characters, with the last of them, if there is one.
    Whole(Option<char>),
    /// A backslash.
    Backslash,
    /// A backslash and `u`.
    Unicode,
    /// `\u{`.
    Open,
    /// `\u{` and digits, with their value.
    Code(u8),
    /// All, with the quote that ends it.
    Closed,
}

/// The value of a digit in hexadecimal, in lower case.
fn digit(c: char) -> Option<u8>
    ensures { result ≡ code_digit c }
{
    match c {
        '0'..='9' => Some(c as u8 - b'0'),
        'a'..='f' => Some(c as u8 - b'a' + 10),
        _ => None,
    }
}

/// Whether a character is printed by its number.
fn is_coded(code: u8) -> bool
    ensures { result ≡ is_coded code }
{
    (code as char).is_control() && !matches!(code, b'\0' | b'\t' | b'\n' | b'\r')
}

/// A first digit of a number.
fn first(digit: u8) -> Option<Escape>
    ensures { result ≡ first_digit digit }
{
    match digit {
        0 | 10 | 13 => None,
        _ => Some(Escape::Code(digit)),
    }
}

/// A second digit after a first.
fn second(code: u8, digit: u8) -> Option<Escape>
    requires { digit < 16 }
    ensures { result ≡ second_digit code digit }
{
    if code < 16 && ((code * 16 + digit) as char).is_control() {
        Some(Escape::Code(code * 16 + digit))
    } else {
        None
    }
}

/// What stands behind a backslash: a letter that stands for a character, or the `u` of a number.
fn letter(c: char) -> Option<Escape>
    ensures { result ≡ after_backslash c }
{
    match c {
        '0' => Some(Escape::Whole(Some('\0'))),
        't' => Some(Escape::Whole(Some('\t'))),
        'n' => Some(Escape::Whole(Some('\n'))),
        'r' => Some(Escape::Whole(Some('\r'))),
        '"' | '\\' => Some(Escape::Whole(Some(c))),
        'u' => Some(Escape::Unicode),
        _ => None,
    }
}

impl Escape {
    /// What is read with one character more, or None where no id goes on so.
    fn then(self, c: char) -> Option<Self>
        ensures { result ≡ escape_then self c }
    {
        match (self, c) {
            (Escape::Whole(_), '\\') => Some(Escape::Backslash),
            (Escape::Whole(_), '"') => Some(Escape::Closed),
            (Escape::Whole(_), c) if !c.is_control() => Some(Escape::Whole(Some(c))),
            (Escape::Backslash, c) => letter(c),
            (Escape::Unicode, '{') => Some(Escape::Open),
            (Escape::Open, c) => first(digit(c)?),
            (Escape::Code(code), '}') if is_coded(code) => {
                Some(Escape::Whole(Some(code as char)))
            }
            (Escape::Code(code), c) => second(code, digit(c)?),
            _ => None,
        }
    }

    /// The character that is read last, where nothing is begun behind it.
    fn whole(self) -> Option<char>
        ensures { result ≡ last_whole self }
    {
        match self {
            Escape::Whole(last) => last,
            _ => None,
        }
    }
}

/// The id that a text spells in quotes, of which the first stands before the text. It is refused
/// exactly where the text spells none, with the byte at which it stops doing so, or out of memory.
pub(crate) fn read_id(alloc: Global, text: &str) -> Result<String, NameFault>
    ensures id { IfOk result (λ id. escaped_text (string_bytes id) ++ codes "\"" ≡ text.now) }
    ensures fault { IfErr result (IsNameFault IsQuoted (λ _. ⊥) (λ _. ⊥) text.now) }
{
    let mut id = String::new(alloc);
    let mut escape = Escape::Whole(None);
    let mut at = 0;
    for c in text.chars() {
        match escape.then(c) {
            Some(next) => escape = next,
            None => return Err(NameFault::NotAName(at)),
        }
        if let Some(whole) = escape.whole() {
            id.push(whole)?;
        }
        at += c.len_utf8();
    }
    match escape {
        Escape::Closed => Ok(id),
        _ => Err(NameFault::NotAName(text.len())),
    }
}
