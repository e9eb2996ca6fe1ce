//! Texts in Cedar's syntax, safe to be shown.

use crate::text::Text;
use cedar_ast::M;
use schema_lines::is_hidden;

/// Whether a character of a text is hidden, and no line end or tab.
fn is_hidden_in_text(character: char) -> bool {
    character != '\n' && character != '\t' && is_hidden(character)
}

/// Adds a text, with an escape for each character of it that is hidden.
fn push_shown(text: &mut Text, from: &str) {
    for character in from.chars() {
        if is_hidden_in_text(character) {
            write!(text, "{}", character.escape_default());
        } else {
            text.push(character);
        }
    }
}

/// A text with an escape for each character that would control a terminal. It reads the same, since
/// such characters stand in quoted texts and in comments alone.
pub(crate) fn shown_text(text: String) -> M<String> {
    if !text.as_str().chars().any(is_hidden_in_text) {
        return Ok(text);
    }
    let mut shown = Text::new(*text.allocator());
    push_shown(&mut shown, text.as_str());
    shown.whole()
}
