//! Steps over a text that allocate nothing.

ghost use Rattle.std.specs.Prelude.{◌≡◌, ◌+◌, ◌-◌, ◌<◌, ◌≤◌, length, drop, slice_index};
ghost use Rattle.std.specs.List.{prefix_len};
ghost use Rattle.cedar_schema_tokens.specs.Lexical as spec;
ghost use Rattle.cedar_schema_tokens.specs.Class.{class_test};

/// The byte at `index`, or 0 past the end.
pub(crate) fn byte_at(s: &str, index: usize) -> u8
    ensures { result ≡ slice_index s.now index }
{
    s.as_bytes().get(index).copied().unwrap_or(0)
}

/// The first byte, or 0.
pub(crate) fn first(s: &str) -> u8
    ensures { result ≡ slice_index s.now 0 }
{
    byte_at(s, 0)
}

/// The first character, or U+0000.
pub(crate) fn first_char(s: &str) -> char
    ensures { result ≡ spec.first_char s.now }
{
    s.chars().next().unwrap_or('\0')
}

/// What follows the first `n` bytes, of which the last is ASCII.
pub(crate) fn skip(s: &str, n: usize) -> &str
    requires some { 0 < n }
    requires there { 0 < slice_index s.now (n - 1) }
    requires ascii { slice_index s.now (n - 1) < 128 }
    ensures { result.now ≡ drop n s.now }
{
    &s[n..]
}

/// A set of bytes, to find a run of them.
#[derive(Clone, Copy)]
pub(crate) enum Class {
    /// The bytes of ids.
    Word,
    /// The bytes of quoted texts that stand for themselves.
    Plain,
    /// The bytes of comments.
    Line,
    /// Hexadecimal digits.
    Hex,
}

fn is_in(class: Class, byte: u8) -> bool
    ensures { result ≡ class_test class byte }
{
    match class {
        Class::Word => byte.is_ascii_alphanumeric() || byte == b'_',
        Class::Plain => byte != b'"' && byte != b'\\' && byte != b'\r',
        Class::Line => byte != b'\n' && byte != b'\r',
        Class::Hex => byte.is_ascii_hexdigit(),
    }
}

/// How many bytes at the front are of the class.
pub(crate) fn run_len(bytes: &[u8], class: Class) -> usize
    ensures len { result ≡ prefix_len (class_test class) bytes.now }
    ensures within { result ≤ length bytes.now }
{
    bytes.iter().take_while(|b| is_in(class, **b)).count()
}

/// The longest front whose bytes are of the class, and the rest.
pub(crate) fn split_run(s: &str, class: Class) -> (&str, &str)
    ensures { (result.0.now, result.1.now) ≡ spec.split_while (class_test class) s.now }
{
    s.split_at(run_len(s.as_bytes(), class))
}
