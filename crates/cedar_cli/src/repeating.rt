//! What messages repeat of what they were given.

use crate::text::Text;
use cedar_ast::M;
use std::fmt;

/// How many characters of a word or a name a message repeats.
const REPEATED: usize = 200;

/// What stands for the rest of a word or a name.
const REST: &str = "..";

/// As much of a word or a name as a message repeats, with [`REST`] behind it where that isn't all.
#[derive(Clone, Copy, Drop)]
pub(crate) struct Repeated<'a>(pub(crate) &'a str);

impl<'a> Repeated<'a> {
    /// What is repeated of it.
    pub(crate) fn beginning(self) -> &'a str {
        match self.0.char_indices().nth(REPEATED) {
            Some((end, _)) => self.0.get(0..end).unwrap_or(self.0),
            None => self.0,
        }
    }

    /// Whether that is all.
    pub(crate) fn is_whole(self) -> bool {
        self.beginning().len() == self.0.len()
    }

    /// What stands for the rest, if there is one.
    pub(crate) fn rest(self) -> &'static str {
        if self.is_whole() { "" } else { REST }
    }
}

impl fmt::Display for Repeated<'_> {
    fn fmt<W: fmt::Write>(&self, f: &mut fmt::Formatter<W>) -> fmt::Result {
        f.write_str(self.beginning())?;
        f.write_str(self.rest())
    }
}

/// A message that is being shortened.
#[derive(Drop)]
struct Shortening {
    /// What is left of it.
    text: Text,
    /// How many characters its last word has so far. What stands in quotes belongs to one word.
    length: usize,
    /// Whether that stands in quotes.
    is_quoted: bool,
    /// Whether a backslash stands before the next character.
    is_escaped: bool,
}

impl Shortening {
    /// Whether a word ends with a character: a blank that stands in no quotes, or their end.
    fn ends_with(&mut self, character: char) -> bool {
        if self.is_escaped {
            self.is_escaped = false;
            return false;
        }
        match character {
            '\\' => self.is_escaped = self.is_quoted,
            '"' => {
                self.is_quoted = !self.is_quoted;
                return !self.is_quoted;
            }
            _ => {}
        }
        character == ' ' && !self.is_quoted
    }

    /// Goes on by a character.
    fn push(&mut self, character: char) {
        self.length = if self.ends_with(character) {
            0
        } else {
            self.length.saturating_add(1)
        };
        if self.length <= REPEATED {
            self.text.push(character);
        } else if self.length == REPEATED.saturating_add(1) {
            self.text.push_str(REST);
        }
    }
}

/// A message of a library, with as much of each word and of each text in quotes as is repeated.
pub(crate) fn shortened(message: String) -> M<String> {
    if Repeated(message.as_str()).is_whole() {
        return Ok(message);
    }
    let mut shortening = Shortening {
        text: Text::new(*message.allocator()),
        length: 0,
        is_quoted: false,
        is_escaped: false,
    };
    for character in message.chars() {
        shortening.push(character);
    }
    shortening.text.whole()
}
