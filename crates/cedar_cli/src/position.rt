//! Places in texts, as people count them.

use crate::text::Text;
use schema_lines::is_hidden;
use unicode_width::UnicodeWidthChar;

/// A place in a text: its line and its column, both from 1 on, columns in characters.
#[derive(Clone, Copy, Drop)]
pub(crate) struct Position {
    /// The line.
    pub(crate) line: usize,
    /// The column.
    pub(crate) column: usize,
}

/// How many characters are shown before the place in a line.
const SHOWN_BEFORE: usize = 60;

/// How many characters of a line are shown.
const SHOWN: usize = 100;

/// The position of the character that a byte belongs to, or that just behind the text where the
/// text has no such byte.
pub(crate) fn position_of(text: &str, at: usize) -> Position {
    let mut line: usize = 1;
    let mut column: usize = 1;
    for (start, character) in text.char_indices() {
        if start >= at {
            return Position { line, column };
        }
        if character == '\n' {
            line = line.saturating_add(1);
            column = 1;
        } else {
            column = column.saturating_add(1);
        }
    }
    Position { line, column }
}

/// A character as it can be shown: a sign in the place of a byte order mark, and of one that
/// controls a terminal, but for tabs.
fn shown(character: char) -> char {
    if (character == '\u{feff}' || is_hidden(character)) && character != '\t' {
        '\u{fffd}'
    } else {
        character
    }
}

/// Adds characters as they can be shown.
fn push_shown(text: &mut Text, characters: &str) {
    for character in characters.chars() {
        text.push(shown(character));
    }
}

/// What stands below a character, as wide as it is shown: a tab below a tab, and else blanks.
fn below(character: char) -> &'static str {
    match shown(character).width() {
        _ if character == '\t' => "\t",
        Some(1) => " ",
        Some(2) => "  ",
        Some(3) => "   ",
        _ => "",
    }
}

/// Adds what stands below characters.
fn push_below(text: &mut Text, characters: &str) {
    for character in characters.chars() {
        text.push_str(below(character));
    }
}

/// The byte at which the character of a number begins, or the end of the line where it has none.
fn start_of(line: &str, number: usize) -> usize {
    match line.char_indices().nth(number) {
        Some((start, _)) => start,
        None => line.len(),
    }
}

/// The characters of a line from one number up to another.
fn part(line: &str, start: usize, stop: usize) -> &str {
    let range = start_of(line, start)..start_of(line, stop);
    line.get(range).unwrap_or("")
}

/// The line of a number, from 1 on.
fn line_at(text: &str, number: usize) -> &str {
    let line = text.split('\n').nth(number.saturating_sub(1));
    line.unwrap_or("").trim_end_matches('\r')
}

/// Adds the line of a position, of a long one the part around it, and below it a `^` under the
/// character that stands there.
pub(crate) fn push_line_with_caret(text: &mut Text, source: &str, position: Position) {
    let line = line_at(source, position.line);
    let before = position.column.saturating_sub(1);
    let start = before.saturating_sub(SHOWN_BEFORE);
    push_shown(text, part(line, start, start.saturating_add(SHOWN)));
    text.push('\n');
    push_below(text, part(line, start, before));
    text.push_str("^\n");
}
