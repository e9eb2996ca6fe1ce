//! What stands where a text stops being JSON, and what could.

use crate::repeating::Repeated;
use crate::text::Text;
use crate::walk::{Open, Walk};
use cedar_ast::Memory;

/// What can stand at a place of a text of JSON.
#[derive(Clone, Copy, Drop)]
enum Expected {
    /// A value.
    Value,
    /// A value, or the end of an array.
    ValueOrEnd,
    /// A key.
    Key,
    /// A key, or the end of an object.
    KeyOrEnd,
    /// What comes behind a member of an object.
    AfterMember,
    /// What comes behind an item of an array.
    AfterItem,
    /// Nothing.
    End,
}

impl Expected {
    /// What can stand behind what was gone through.
    fn behind(walk: &Walk) -> Self {
        let end = match walk.innermost() {
            Some(Open { end, .. }) => end,
            None => b' ',
        };
        match (walk.last_byte, end) {
            (None | Some(b':'), _) => Expected::Value,
            (Some(b'['), _) => Expected::ValueOrEnd,
            (Some(b'{'), _) => Expected::KeyOrEnd,
            (Some(b','), b'}') => Expected::Key,
            (Some(b','), _) => Expected::Value,
            (Some(_), b'}') => Expected::AfterMember,
            (Some(_), b']') => Expected::AfterItem,
            (Some(_), _) => Expected::End,
        }
    }

    /// The words for it.
    fn words(self) -> &'static str {
        match self {
            Expected::Value => "a value",
            Expected::ValueOrEnd => "a value or `]`",
            Expected::Key => "a key in double quotes",
            Expected::KeyOrEnd => "a key in double quotes or `}`",
            Expected::AfterMember => "a comma or `}`",
            Expected::AfterItem => "a comma or `]`",
            Expected::End => "the end of the text",
        }
    }

    /// Whether a key can stand there.
    fn is_key(self) -> bool {
        matches!(self, Expected::Key | Expected::KeyOrEnd)
    }

    /// Whether a string can stand there.
    fn is_string(self) -> bool {
        self.is_key() || matches!(self, Expected::Value | Expected::ValueOrEnd)
    }
}

/// How a string goes on, behind the quote that begins it.
#[derive(Clone, Copy, Drop)]
enum StringEnd {
    /// It ends before this byte.
    At(usize),
    /// A line ends in it.
    Line,
    /// It has a character that can only stand there as an escape.
    Control,
    /// It has an escape that there isn't.
    Escape,
    /// The text ends in it.
    Text,
}

/// How a string goes on that begins a text.
fn string_end(text: &str) -> StringEnd {
    let mut is_escaped = false;
    for (at, character) in text.char_indices().skip(1) {
        match character {
            '\n' | '\r' => return StringEnd::Line,
            '\0'..='\u{1f}' => return StringEnd::Control,
            _ if is_escaped && !"\"\\/bfnrtu".contains(character) => return StringEnd::Escape,
            '"' if !is_escaped => return StringEnd::At(at.saturating_add(1)),
            _ => is_escaped = character == '\\' && !is_escaped,
        }
    }
    StringEnd::Text
}

/// Whether a character ends a word.
fn ends_word(character: char) -> bool {
    character.is_whitespace() || "{}[]:,\"".contains(character)
}

/// What a text begins with: a string, a word, or else one character.
fn piece(text: &str) -> &str {
    let end = match (text.chars().next(), string_end(text)) {
        (Some('"'), StringEnd::At(end)) => end,
        (Some(first), _) if ends_word(first) => first.len_utf8(),
        _ => text.find(ends_word).unwrap_or(text.len()),
    };
    text.get(0..end).unwrap_or(text)
}

/// What is said of a string that is none.
fn string_words(end: StringEnd) -> &'static str {
    match end {
        StringEnd::At(_) => "this is no string of JSON",
        StringEnd::Line => "the quote that ends this string is missing on its line",
        StringEnd::Control => "this string has a character that has to be escaped",
        StringEnd::Escape => "this string has an escape that JSON doesn't have",
        StringEnd::Text => "the quote that ends this string is missing",
    }
}

/// Adds what is said of a key without a colon, by what stands behind it.
fn push_no_colon(words: &mut Text, behind: &str) {
    match behind.chars().next() {
        None => words.push_str("the text ends behind this key, where `:` has to stand"),
        Some(':') => words.push_str("this is no string of JSON"),
        Some(_) => {
            let piece = Repeated(piece(behind));
            write!(words, "`{piece}` stands behind this key, where `:` could");
        }
    }
}

/// Adds what is said of a string that stands where one can.
fn push_string(words: &mut Text, here: &str, wanted: Expected) {
    match string_end(here) {
        StringEnd::At(end) if wanted.is_key() => {
            push_no_colon(words, here.get(end..here.len()).unwrap_or("").trim_start());
        }
        end => words.push_str(string_words(end)),
    }
}

/// Whether a text begins with a comment, as other formats have them.
fn begins_with_comment(text: &str) -> bool {
    text.starts_with("//") || text.starts_with("/*") || text.starts_with('#')
}

/// Adds that something stands where something else could.
fn push_instead(words: &mut Text, here: &str, wanted: Expected) {
    let piece = Repeated(piece(here));
    write!(
        words,
        "`{piece}` stands here, where {} could",
        wanted.words()
    );
}

/// Adds what stands behind what was gone through, and what could.
fn push_here(words: &mut Text, here: &str, walk: &Walk) {
    let wanted = Expected::behind(walk);
    match here.chars().next() {
        None => write!(
            words,
            "the text ends here, where {} has to stand",
            wanted.words()
        ),
        Some('"') if wanted.is_string() => push_string(words, here, wanted),
        Some('}' | ']') if walk.last_byte == Some(b',') => {
            push_instead(words, here, wanted);
            words.push_str(": the comma before it is one too many");
        }
        Some(_) if begins_with_comment(here) => {
            words.push_str("a comment stands here, and JSON has none");
        }
        Some(_) => push_instead(words, here, wanted),
    }
}

/// Adds what stands at a byte at which a text stops being JSON, and what could.
pub(crate) fn push_slip(words: &mut Text, text: &str, at: usize) {
    match Walk::up_to(words.alloc(), text, "", at) {
        Ok(walk) => push_here(words, text.get(at..text.len()).unwrap_or(""), &walk),
        Err(Memory) => words.refuse(),
    }
}
