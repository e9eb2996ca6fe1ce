//! Where a text stops being JSON.

ghost use Rattle.std.specs.Prelude.{◌≡◌, ◌≤◌, ◌<◌, length, true, vec_len, IfOk, OnOk};
ghost use Rattle.json.specs.Lex.{tokens};
ghost use Rattle.json.specs.Reads.{token_of};
ghost use Rattle.cedar_json.specs.Nesting.{begins_part, nests_too_deep, open_after};

use cedar_ast::M;
use json::{MAX_DEPTH, Reader, Scratch, Token};
use std::alloc::Global;

/// Where a text stops being JSON, and whether it nests too deep there.
#[derive(Clone, Copy)]
pub(crate) struct Stop {
    /// How many bytes stand before what can't stand where it does: the text's length where the
    /// text ends too early.
    pub(crate) up_to: usize,
    /// Whether an array or an object begins there that is nested too deep.
    pub(crate) too_deep: bool,
}

/// The kinds of value that hold others.
#[derive(Clone, Copy)]
enum Part {
    Array,
    Object,
}

/// What is open at a place in a text.
#[derive(Drop)]
struct Nesting {
    /// The arrays and objects that have begun and not yet ended, the innermost last.
    open: Vec<Part>,
    /// Whether a key stands before the place, whose value is to come.
    has_key: bool,
    /// Whether the whole value stands before the place.
    is_whole: bool,
}

/// Whether an array or an object begins with a token.
fn begins_part(token: &Token<'_>) -> bool
    ensures { result ≡ begins_part (token_of token.now) }
{
    matches!(token, Token::BeginArray | Token::BeginObject)
}

impl Nesting {
    /// The innermost array or object that is open.
    fn innermost(&self) -> Option<Part> {
        self.open.last().copied()
    }

    /// Whether a token may stand at the place.
    fn fits(&self, token: &Token<'_>) -> bool {
        match token {
            Token::Key(_) | Token::EndObject => {
                !self.has_key && matches!(self.innermost(), Some(Part::Object))
            }
            Token::EndArray => matches!(self.innermost(), Some(Part::Array)),
            Token::BeginArray
            | Token::BeginObject
            | Token::String(_)
            | Token::Number(_)
            | Token::Bool(_)
            | Token::Null => match self.innermost() {
                Some(Part::Array) => true,
                Some(Part::Object) => self.has_key,
                None => !self.is_whole,
            },
            Token::Bad => false,
        }
    }

    /// Goes past a token.
    fn pass(&mut self, token: &Token<'_>) -> M<()>
        ensures { OnOk result
            (vec_len self.new.open ≡ open_after (token_of token.now) (vec_len self.old.open)) }
    {
        self.has_key = matches!(token, Token::Key(_));
        match token {
            Token::BeginArray => self.open.push(Part::Array)?,
            Token::BeginObject => self.open.push(Part::Object)?,
            Token::EndArray | Token::EndObject => {
                let _ended = self.open.pop();
            }
            Token::Key(_)
            | Token::String(_)
            | Token::Number(_)
            | Token::Bool(_)
            | Token::Null
            | Token::Bad => {}
        }
        self.is_whole = self.open.is_empty();
        Ok(())
    }
}

/// Where the tokens that a reader has stop being JSON, in a text that ends at a place.
fn stop_among(reader: &mut Reader<'_>, nesting: &mut Nesting, end: usize) -> M<Stop>
    ensures { IfOk result (λ stop. (stop.up_to ≤ end) × (stop.too_deep ≡ true
        → nests_too_deep (vec_len nesting.old.open) reader.old ≡ true)) }
{
    let mut up_to = reader.offset().min(end);
    while let Some(token) = reader.next() {
        if !nesting.fits(&token) {
            break;
        }
        if begins_part(&token) && nesting.open.len() >= MAX_DEPTH {
            return Ok(Stop {
                up_to,
                too_deep: true,
            });
        }
        nesting.pass(&token)?;
        up_to = reader.offset().min(end);
    }
    Ok(Stop {
        up_to,
        too_deep: false,
    })
}

/// Where a text that is no JSON, or nests too deep, stops being JSON.
pub(crate) fn stop_of(alloc: Global, text: &str) -> M<Stop>
    ensures { IfOk result (λ stop. (stop.up_to ≤ length text.now)
        × (stop.too_deep ≡ true → nests_too_deep 0 (tokens text.now) ≡ true)) }
{
    let mut scratch = Scratch::new(alloc);
    let mut reader = Reader::new(text, &mut scratch)?;
    let mut nesting = Nesting {
        open: Vec::new(alloc),
        has_key: false,
        is_whole: false,
    };
    stop_among(&mut reader, &mut nesting, text.len())
}
