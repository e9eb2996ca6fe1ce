//! What the tests say of an answer that isn't the one that was expected, and answers on one line.

use cedar_ast::M;
use std::alloc::Global;
use std::test::Fail;

/// Fails, with the row, where an answer isn't the text that was expected.
pub fn same(row: &str, answer: &str, expected: &str) -> Result<(), Fail> {
    if answer == expected {
        return Ok(());
    }
    Err(Fail::new(format_args!("at {row}: {answer}, and not {expected}")))
}

/// Fails, with the row, where something isn't so.
pub fn holds(is_so: bool, row: &str) -> Result<(), Fail> {
    if is_so {
        return Ok(());
    }
    Err(Fail::new(format_args!("at {row}")))
}

/// Fails, with the row, where an answer is none of the texts that are allowed, between which stands
/// ` or else `.
pub fn one_of(row: &str, answer: &str, allowed: &str) -> Result<(), Fail> {
    for text in allowed.split(" or else ") {
        if text == answer {
            return Ok(());
        }
    }
    same(row, answer, allowed)
}

/// The lines of a text, with `; ` between them.
pub fn on_one_line(alloc: Global, lines: &str) -> M<String> {
    Ok(lines.trim_end().replace(alloc, '\n', "; ")?)
}
