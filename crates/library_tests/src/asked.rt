//! Questions about texts, and tables of rows that say what is answered.

use checked::same;
use std::alloc::Global;
use std::fmt::Display;
use std::test::Fail;

/// A question about a text.
pub(crate) trait Question: Copy {
    /// What is answered about the text.
    fn answer(self, alloc: Global, text: &str) -> Result<String, Fail>;
}

/// Texts, each with what is answered about it.
pub(crate) type Rows = &'static [(&'static str, &'static str)];

/// Fails at the first row about which something else is answered.
fn check_rows<Q: Question>(alloc: Global, question: Q, rows: Rows) -> Result<(), Fail> {
    for &(text, expected) in rows {
        same(text, question.answer(alloc, text)?.as_str(), expected)?;
    }
    Ok(())
}

/// The same of several questions, each with its rows.
pub(crate) fn check<Q: Question>(alloc: Global, table: &[(Q, Rows)]) -> Result<(), Fail> {
    for &(question, rows) in table {
        check_rows(alloc, question, rows)?;
    }
    Ok(())
}

/// What is printed of a result or of a refusal.
pub(crate) fn told<T: Display + Drop, E: Display + Drop>(
    alloc: Global,
    answer: Result<T, E>,
) -> Result<String, Fail> {
    match answer {
        Ok(result) => Ok(format!(in alloc; "{result}")?),
        Err(refusal) => Ok(format!(in alloc; "{refusal}")?),
    }
}
