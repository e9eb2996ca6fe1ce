//! Texts that are being written.

use crate::repeating::Repeated;
use cedar_ast::{M, Memory};
use cedar_schema::Type;
use schema_lines::{escaped, push_name, push_type};
use std::alloc::Global;
use std::fmt::Display;

/// A text that is being written. Where memory runs out, that is remembered, and reported at the
/// end.
#[derive(Drop)]
pub(crate) struct Text {
    /// What was written of it.
    written: String,
    /// Whether memory ran out.
    is_refused: bool,
}

impl Text {
    /// Nothing written yet.
    pub(crate) fn new(alloc: Global) -> Self {
        Text {
            written: String::new(alloc),
            is_refused: false,
        }
    }

    /// Where the text is.
    pub(crate) fn alloc(&self) -> Global {
        *self.written.allocator()
    }

    /// Adds a character.
    pub(crate) fn push(&mut self, character: char) {
        self.is_refused |= self.written.push(character).is_err();
    }

    /// Adds words.
    pub(crate) fn push_str(&mut self, words: &str) {
        self.is_refused |= self.written.push_str(words).is_err();
    }

    /// Adds what a value is as text: what `write!` calls.
    pub(crate) fn write_fmt<T: Display + Drop>(&mut self, value: T) {
        self.is_refused |= self.written.write(value).is_err();
    }

    /// What was written of it.
    pub(crate) fn as_str(&self) -> &str {
        self.written.as_str()
    }

    /// Whether memory ran out.
    pub(crate) fn is_refused(&self) -> bool {
        self.is_refused
    }

    /// Notes that memory ran out.
    pub(crate) fn refuse(&mut self) {
        self.is_refused = true;
    }

    /// Adds words with an escape in the place of each character that would control a terminal.
    pub(crate) fn push_escaped(&mut self, words: &str) {
        match escaped(self.alloc(), words) {
            Ok(words) => self.push_str(words.as_str()),
            Err(Memory) => self.refuse(),
        }
    }

    /// Adds what a value is as text, escaped so.
    pub(crate) fn write_escaped<T: Display + Drop>(&mut self, value: T) {
        match String::format(self.alloc(), value) {
            Ok(words) => self.push_escaped(words.as_str()),
            Err(_) => self.refuse(),
        }
    }

    /// Adds the name of an attribute, in quotes where it is no identifier.
    pub(crate) fn push_name(&mut self, name: &str) {
        self.is_refused |= push_name(&mut self.written, name).is_err();
    }

    /// Adds a type, in which such names stand so.
    pub(crate) fn push_type(&mut self, ty: &Type) {
        self.is_refused |= push_type(&mut self.written, ty).is_err();
    }

    /// Adds what was written of another text, escaped.
    pub(crate) fn push_text(&mut self, other: &Text) {
        self.is_refused |= other.is_refused;
        self.push_escaped(other.as_str());
    }

    /// Adds as much of another text as messages repeat.
    pub(crate) fn push_beginning(&mut self, other: &Text) {
        self.is_refused |= other.is_refused;
        self.write_fmt(Repeated(other.as_str()));
    }

    /// The text, where memory sufficed for it.
    pub(crate) fn whole(self) -> M<String> {
        if self.is_refused {
            return Err(Memory);
        }
        Ok(self.written)
    }
}
