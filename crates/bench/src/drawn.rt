//! Texts that are drawn.

use crate::stop::Stop;
use cedar_json::fragment_from_json;
use cedar_schema::json_schema::{Fragment, RawName};
use std::alloc::Global;
use std::fmt::Display;

/// A text that is being drawn. Where memory runs out, that is remembered, and told at the end.
#[derive(Drop)]
pub(crate) struct Drawn {
    /// What was drawn of it.
    text: String,
    /// Whether memory ran out.
    is_refused: bool,
}

impl Drawn {
    /// Nothing drawn yet.
    pub(crate) fn new(alloc: Global) -> Self {
        Drawn {
            text: String::new(alloc),
            is_refused: false,
        }
    }

    /// Adds words.
    pub(crate) fn push_str(&mut self, words: &str) {
        self.is_refused |= self.text.push_str(words).is_err();
    }

    /// Adds what a value is as text: what `write!` calls.
    pub(crate) fn write_fmt<T: Display + Drop>(&mut self, value: T) {
        self.is_refused |= self.text.write(value).is_err();
    }

    /// The fragment that the text describes.
    pub(crate) fn read(self, alloc: Global) -> Result<Fragment<RawName>, Stop> {
        if self.is_refused {
            return Err(Stop::Memory);
        }
        Ok(fragment_from_json(alloc, self.text.as_str(), 0)?)
    }
}
