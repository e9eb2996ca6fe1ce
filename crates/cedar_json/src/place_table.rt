//! Where the values and the keys of a text stand.
//!
//! A text is read a second time for its places alone, so that a value needs no room for one. The
//! values are numbered in the order of the text, and a cursor goes over their numbers as a reader
//! goes over the values. No contract says that a place is the right one: tests do.

use cedar_ast::{Loc, M, Memory};
use json::{Reader, Scratch, Token, Value};
use std::alloc::Global;

/// How many bytes a text has for each value in it, about. A text without blanks has fewer.
const BYTES_A_VALUE: usize = 24;

/// Some bytes of a text, from the first of them up to the one after the last.
#[derive(Clone, Copy)]
struct Span {
    start: u32,
    stop: u32,
}

/// Where a value stands.
#[derive(Clone, Copy)]
struct Entry {
    /// The bytes of the value.
    value: Span,
    /// The bytes of its key with the quotes, where it is the value of a member.
    key: Option<Span>,
    /// The number of the first value behind it that isn't inside it.
    after: u32,
}

/// Where the values of a text stand, in the order in which they begin.
#[derive(Drop)]
pub(crate) struct ValuePlaces {
    source: u32,
    entries: Vec<Entry>,
}

/// Places that are being listed. Where memory runs out, that is remembered, and told at the end.
#[derive(Drop)]
struct Listing {
    entries: Vec<Entry>,
    /// The numbers of the values that have begun and not yet ended, the innermost last.
    open: Vec<usize>,
    /// The key of the value that comes next.
    key: Option<Span>,
    /// Whether memory ran out.
    is_refused: bool,
}

/// A number as 32 bits, which are enough in a text that is short enough to be read.
fn in_32_bits(number: usize) -> u32 {
    u32::try_from(number).unwrap_or(u32::MAX)
}

/// Where a token ends that begins at `start` and is followed by one at `next`. Behind the token
/// stand blanks and a comma or colon at most, and no token ends with one of these.
fn stop_before(text: &[u8], start: usize, next: usize) -> usize {
    let mut stop = next.min(text.len());
    while stop > start && matches!(text[stop - 1], b' ' | b'\t' | b'\n' | b'\r' | b',' | b':') {
        stop -= 1;
    }
    stop
}

impl Listing {
    /// Nothing listed yet of a text of some bytes.
    fn new(alloc: Global, length: usize) -> M<Listing> {
        Ok(Listing {
            entries: Vec::with_capacity(alloc, length / BYTES_A_VALUE)?,
            open: Vec::new(alloc),
            key: None,
            is_refused: false,
        })
    }

    /// Lists a value that begins with some bytes.
    fn begin(&mut self, value: Span) {
        let entry = Entry {
            value,
            key: self.key,
            after: in_32_bits(self.entries.len().saturating_add(1)),
        };
        self.is_refused |= self.entries.push(entry).is_err();
        self.key = None;
    }

    /// Lists an array or an object that begins with some bytes.
    fn open(&mut self, value: Span) {
        self.is_refused |= self.open.push(self.entries.len()).is_err();
        self.begin(value);
    }

    /// Ends the innermost value that is open.
    fn end(&mut self, stop: u32) {
        let after = in_32_bits(self.entries.len());
        let Some(number) = self.open.pop() else {
            return;
        };
        if number < self.entries.len() {
            let entry = &mut self.entries[number];
            entry.value.stop = stop;
            entry.after = after;
        }
    }

    /// Lists what a token begins or ends.
    fn take(&mut self, token: Token<'_>, place: Span) {
        match token {
            Token::Key(_) => self.key = Some(place),
            Token::BeginArray | Token::BeginObject => self.open(place),
            Token::EndArray | Token::EndObject => self.end(place.stop),
            Token::String(_) | Token::Number(_) | Token::Bool(_) | Token::Null => {
                self.begin(place);
            }
            Token::Bad => {}
        }
    }

    /// Lists what the tokens of a text begin and end.
    fn take_all(&mut self, text: &[u8], reader: &mut Reader<'_>) {
        let mut start = reader.offset();
        while let Some(token) = reader.next() {
            let next = reader.offset();
            let place = Span {
                start: in_32_bits(start),
                stop: in_32_bits(stop_before(text, start, next)),
            };
            self.take(token, place);
            start = next;
        }
    }
}

impl ValuePlaces {
    /// The places of a text that is JSON, or out of memory.
    pub(crate) fn of(alloc: Global, text: &str, source: u32) -> M<ValuePlaces> {
        let mut scratch = Scratch::new(alloc);
        let mut reader = Reader::new(text, &mut scratch)?;
        let mut listing = Listing::new(alloc, text.len())?;
        listing.take_all(text.as_bytes(), &mut reader);
        if listing.is_refused {
            return Err(Memory);
        }
        Ok(ValuePlaces {
            source,
            entries: listing.entries,
        })
    }

    /// A cursor at the value that the text is.
    pub(crate) fn cursor(&self) -> Cursor<'_> {
        Cursor {
            places: self,
            number: 0,
        }
    }

    fn loc(&self, span: Span) -> Loc {
        Loc {
            source: self.source,
            start: span.start,
            stop: span.stop,
        }
    }
}

/// The number of a value of a text, which a reader has beside the value.
#[derive(Clone, Copy)]
pub(crate) struct Cursor<'p> {
    places: &'p ValuePlaces,
    number: usize,
}

impl<'p> Cursor<'p> {
    /// The entry of the value.
    fn entry(self) -> Option<Entry> {
        self.places.entries.get(self.number).copied()
    }

    /// Where the value stands.
    pub(crate) fn loc(self) -> Option<Loc> {
        let entry = self.entry()?;
        Some(self.places.loc(entry.value))
    }

    /// Where the key of the value stands, with its quotes.
    pub(crate) fn key_loc(self) -> Option<Loc> {
        let key = self.entry()?.key?;
        Some(self.places.loc(key))
    }

    /// At the first value inside the value.
    pub(crate) fn first(self) -> Cursor<'p> {
        Cursor {
            places: self.places,
            number: self.number.saturating_add(1),
        }
    }

    /// At the value that follows the value in the same array or object.
    pub(crate) fn next(self) -> Cursor<'p> {
        match self.entry() {
            Some(entry) => Cursor {
                places: self.places,
                number: entry.after as usize,
            },
            None => self,
        }
    }

    /// At the value at an index of the array or object that the value is.
    pub(crate) fn child(self, index: usize) -> Cursor<'p> {
        let mut at = self.first();
        for _ in 0..index {
            at = at.next();
        }
        at
    }

    /// At the value of a field of the object that the value is.
    pub(crate) fn field(self, value: &Value<'_>, name: &str) -> Cursor<'p> {
        let mut at = self.first();
        if let Value::Object(members) = value {
            for member in members {
                if member.0 == name {
                    return at;
                }
                at = at.next();
            }
        }
        at
    }
}
