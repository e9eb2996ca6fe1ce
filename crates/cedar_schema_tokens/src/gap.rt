//! White space and comments.

ghost use Rattle.std.specs.Prelude.{◌≡◌, ◌≤◌, length};
ghost use Rattle.std.specs.Str.{IsCharBoundary};
ghost use Rattle.cedar_schema_tokens.specs.Lexical as spec;

use crate::steps::{Class, byte_at, first, first_char, run_len};

/// How many bytes the white space character at the front takes; 0 where there is none.
pub(crate) fn blank_len(s: &str) -> usize
    ensures len { result ≡ spec.blank_len s.now }
    ensures cut { IsCharBoundary s.now result }
{
    let c = first_char(s);
    if c.is_whitespace() { c.len_utf8() } else { 0 }
}

/// How many bytes the white space character or the comment at the front takes; 0 where there is
/// none. A comment goes up to the end of its line.
fn gap_len(s: &str) -> usize
    ensures len { result ≡ spec.gap_len s.now }
    ensures cut { IsCharBoundary s.now result }
{
    if first(s) == b'/' && byte_at(s, 1) == b'/' {
        run_len(s.as_bytes(), Class::Line)
    } else {
        blank_len(s)
    }
}

/// Without the white space and the comments at the front.
#[tactic(auto, unfolding(crate::specs::Lexical::gap_from))]
pub(crate) fn after_gap(s: &str) -> &str
    ensures { result.now ≡ spec.after_gap s.now }
{
    let mut rest = s;
    for _turn in 0..s.len() {
        let taken = gap_len(rest);
        if taken == 0 {
            return rest;
        }
        rest = &rest[taken..];
    }
    rest
}
