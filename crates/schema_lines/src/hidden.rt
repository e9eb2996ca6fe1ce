//! Characters that would control a terminal, and texts in which none of them stands.

ghost use Rattle.std.specs.Prelude.{◌≡◌};
ghost use Rattle.schema_lines.specs.Hidden.{is_hidden};

use cedar_schema::below::M;
use std::alloc::Global;

/// Whether a character is shown nowhere, since it would control a terminal: a control character
/// (U+0000 to U+001F, U+007F to U+009F), or one that turns the direction of the text around it
/// (U+202A to U+202E, U+2066 to U+2069).
pub fn is_hidden(character: char) -> bool
    ensures { result ≡ is_hidden character }
{
    character.is_control() || matches!(character, '\u{202a}'..='\u{202e}' | '\u{2066}'..='\u{2069}')
}

/// A text with an escape in the place of each character that would control a terminal. Out of
/// memory is the only refusal.
pub fn escaped(alloc: Global, text: &str) -> M<String> {
    let mut escaped = String::new(alloc);
    for character in text.chars() {
        if is_hidden(character) {
            escaped.push_str(format!(in alloc; "{}", character.escape_default())?.as_str())?;
        } else {
            escaped.push(character)?;
        }
    }
    Ok(escaped)
}
