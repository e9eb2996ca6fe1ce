//! Lines of JSON, safe to be shown.

use crate::text::Text;
use cedar_ast::{M, Memory};
use json::{Error, Scratch, Value, Writer};
use schema_lines::is_hidden;
use std::alloc::Global;

/// An object of JSON that is being written. Where memory runs out, that is remembered, and reported
/// at the end.
#[derive(Drop)]
pub(crate) struct Object {
    /// What was written of it.
    writer: Writer,
    /// Whether memory ran out.
    is_refused: bool,
}

impl Object {
    /// An object without members yet.
    pub(crate) fn begin(alloc: Global) -> Self {
        let mut object = Object {
            writer: Writer::new(Vec::new(alloc)),
            is_refused: false,
        };
        object.begin_object();
        object
    }

    /// Adds a key.
    pub(crate) fn key(&mut self, key: &str) {
        self.is_refused |= self.writer.key(key).is_err();
    }

    /// Adds a member whose value is a text.
    pub(crate) fn text(&mut self, key: &str, text: &str) {
        self.key(key);
        self.is_refused |= self.writer.string(text).is_err();
    }

    /// Adds a member whose value is a number.
    pub(crate) fn number(&mut self, key: &str, number: usize) {
        self.key(key);
        self.is_refused |= self.writer.u64(number as u64).is_err();
    }

    /// Adds a member whose value is a text that was written first.
    pub(crate) fn written(&mut self, key: &str, text: &Text) {
        self.is_refused |= text.is_refused();
        self.text(key, text.as_str());
    }

    /// Adds the value that a text of JSON is, or `null` where it is none.
    pub(crate) fn parsed(&mut self, alloc: Global, text: &str) {
        let mut scratch = Scratch::new(alloc);
        let is_refused = match Value::parse(alloc, text, &mut scratch) {
            Ok(value) => self.writer.value(&value).is_err(),
            Err(Error::OutOfMemory) => true,
            Err(_) => self.writer.null().is_err(),
        };
        self.is_refused |= is_refused;
    }

    /// Adds `null`.
    pub(crate) fn null(&mut self) {
        self.is_refused |= self.writer.null().is_err();
    }

    /// Notes that memory ran out.
    pub(crate) fn refuse(&mut self) {
        self.is_refused = true;
    }

    /// Begins an object.
    pub(crate) fn begin_object(&mut self) {
        self.is_refused |= self.writer.begin_object().is_err();
    }

    /// Ends an object.
    pub(crate) fn end_object(&mut self) {
        self.is_refused |= self.writer.end_object().is_err();
    }

    /// Begins an array.
    pub(crate) fn begin_array(&mut self) {
        self.is_refused |= self.writer.begin_array().is_err();
    }

    /// Ends an array.
    pub(crate) fn end_array(&mut self) {
        self.is_refused |= self.writer.end_array().is_err();
    }

    /// The text, where memory sufficed for it.
    fn whole(self, alloc: Global) -> M<String> {
        if self.is_refused {
            return Err(Memory);
        }
        String::from_utf8_lossy(alloc, self.writer.into_inner().as_slice()).or(Err(Memory))
    }

    /// Ends the object, and adds it to a text as a line.
    pub(crate) fn push_to(mut self, text: &mut Text) {
        self.end_object();
        match self.whole(text.alloc()) {
            Ok(line) => push_line(text, line.as_str()),
            Err(Memory) => text.refuse(),
        }
    }
}

/// Whether a character would control a terminal otherwise than by ending a line.
fn is_hidden_in_json(character: char) -> bool {
    is_hidden(character) && character != '\n'
}

/// Adds JSON, with JSON's escape in the place of each such character.
fn push_json(text: &mut Text, json: &str) {
    for character in json.chars() {
        if is_hidden_in_json(character) {
            write!(text, "\\u{:04x}", u32::from(character));
        } else {
            text.push(character);
        }
    }
}

/// Adds a line of JSON so, and a line end.
pub(crate) fn push_line(text: &mut Text, line: &str) {
    push_json(text, line);
    text.push('\n');
}

/// A text of JSON as it is shown: with such escapes where it has such characters.
pub(crate) fn shown_json(json: String) -> M<String> {
    if !json.as_str().chars().any(is_hidden_in_json) {
        return Ok(json);
    }
    let mut text = Text::new(*json.allocator());
    push_json(&mut text, json.as_str());
    text.whole()
}
