//! Texts of JSON, gone through byte by byte.

use cedar_ast::{M, Memory};
use std::alloc::Global;

/// An object or an array that has begun and not yet ended.
#[derive(Clone, Copy, Drop)]
pub(crate) struct Open {
    /// What ends it.
    pub(crate) end: u8,
    /// Where the key that is looked for began in it first, if it did.
    pub(crate) first: Option<usize>,
}

/// A text of JSON, as far as it was gone through. Where memory runs out, that is remembered, and
/// reported at the end.
#[derive(Drop)]
pub(crate) struct Walk {
    /// The objects and arrays that are open, the innermost last.
    open: Vec<Open>,
    /// Where the string began in which the walk is, if it is in one.
    string: Option<usize>,
    /// Whether the next byte of that string is escaped.
    is_escaped: bool,
    /// Where the last whole string began, and where it ended.
    last: (usize, usize),
    /// The last byte that isn't blank, if there was one.
    pub(crate) last_byte: Option<u8>,
    /// Whether memory ran out.
    is_refused: bool,
}

impl Walk {
    /// Goes on by a byte of a string.
    fn in_string(&mut self, start: usize, at: usize, byte: u8) {
        if self.is_escaped {
            self.is_escaped = false;
        } else if byte == b'\\' {
            self.is_escaped = true;
        } else if byte == b'"' {
            self.string = None;
            self.last = (start, at.saturating_add(1));
        }
    }

    /// Notes the string before a colon, where it is the key and the first such of its object.
    fn note_key(&mut self, text: &str, key: &str) {
        let (start, stop) = self.last;
        if let Some(string) = text.get(start..stop)
            && string == key
            && let Some(open) = self.open.last_mut()
            && open.first.is_none()
        {
            open.first = Some(start);
        }
    }

    /// Notes that an object or an array begins.
    fn begin(&mut self, end: u8) {
        let first = None;
        self.is_refused |= self.open.push(Open { end, first }).is_err();
    }

    /// Goes on by a byte that stands in no string.
    fn between_strings(&mut self, text: &str, key: &str, at: usize, byte: u8) {
        match byte {
            b'"' => self.string = Some(at),
            b'{' => self.begin(b'}'),
            b'[' => self.begin(b']'),
            b'}' | b']' => {
                let _ = self.open.pop();
            }
            b':' => self.note_key(text, key),
            _ => {}
        }
    }

    /// Goes on by a byte.
    fn step(&mut self, text: &str, key: &str, at: usize, byte: u8) {
        match self.string {
            Some(start) => self.in_string(start, at, byte),
            None => self.between_strings(text, key, at, byte),
        }
        if !byte.is_ascii_whitespace() {
            self.last_byte = Some(byte);
        }
    }

    /// A text, gone through up to a byte, with a key that is looked for in each object.
    pub(crate) fn up_to(alloc: Global, text: &str, key: &str, stop: usize) -> M<Self> {
        let mut walk = Walk {
            open: Vec::new(alloc),
            string: None,
            is_escaped: false,
            last: (0, 0),
            last_byte: None,
            is_refused: false,
        };
        for (at, byte) in text.as_bytes().iter().enumerate() {
            if at >= stop {
                break;
            }
            walk.step(text, key, at, *byte);
        }
        if walk.is_refused {
            return Err(Memory);
        }
        Ok(walk)
    }

    /// What is open innermost, if something is.
    pub(crate) fn innermost(&self) -> Option<Open> {
        self.open.last().copied()
    }
}
