//! Cedar's own syntax of schemas, as far as it is told from JSON.

/// The words with which a declaration in Cedar's schema syntax may begin.
const CEDAR_WORDS: &[&str] = &["namespace", "entity", "action", "type"];

/// Whether a text begins with a word, behind which a blank or nothing stands.
fn begins_with_word(text: &str, word: &str) -> bool {
    match text.strip_prefix(word) {
        Some(rest) => rest.is_empty() || rest.starts_with([' ', '\t']),
        None => false,
    }
}

/// Whether a line begins a declaration in Cedar's schema syntax, or an annotation of one.
fn begins_declaration(line: &str) -> bool {
    for word in CEDAR_WORDS {
        if begins_with_word(line, word) {
            return true;
        }
    }
    line.starts_with('@')
}

/// Whether a text is in Cedar's schema syntax, by its first line that is no comment.
pub(crate) fn is_cedar(text: &str) -> bool {
    for line in text.split('\n') {
        let line = line.trim();
        if !line.is_empty() && !line.starts_with("//") {
            return begins_declaration(line);
        }
    }
    false
}
