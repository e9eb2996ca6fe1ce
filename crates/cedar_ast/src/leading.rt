//! The leading bytes of texts, as numbers.

ghost use Rattle.std.specs.Prelude.{◌≡◌, ◌+◌, ◌*◌, get_or};
ghost use Rattle.cedar_ast.specs.LeadingBytes.{leading_bytes};

/// The byte of a text at a place, or zero where it has none there.
pub(crate) fn byte_at(text: &[u8], at: usize) -> u8
    ensures { result ≡ get_or text.now at 0 }
{
    match text.get(at) {
        Some(byte) => *byte,
        None => 0,
    }
}

/// The first seven bytes of a text and another after them as a number, of which the first byte
/// weighs most. What a shorter text lacks are zeros.
pub(crate) fn leading_number(text: &[u8], last: u8) -> u64
    ensures { result ≡ leading_bytes 7 text.now * 256 + last }
{
    u64::from_be_bytes([
        byte_at(text, 0),
        byte_at(text, 1),
        byte_at(text, 2),
        byte_at(text, 3),
        byte_at(text, 4),
        byte_at(text, 5),
        byte_at(text, 6),
        last,
    ])
}
