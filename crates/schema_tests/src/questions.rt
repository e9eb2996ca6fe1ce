//! What schemas answer to questions that texts put to them.

mod known;
mod lists;
mod located;
mod places;
mod rows;
mod whole;

use cedar_schema::ValidatorSchema;
use cedar_schema::below::M;
use checked::names::{entity_types, uids};
use std::alloc::Global;
use std::test::Fail;

/// The failure of a text that asks nothing.
pub(crate) fn unknown(question: &str) -> Fail {
    Fail::new(format_args!("no question: {question}"))
}

/// The text of a missing answer.
pub(crate) fn missing(alloc: Global) -> M<String> {
    Ok(String::from_str(alloc, "None")?)
}

/// What a schema answers to a question of a kind, of a list or of what stands behind the colon.
///
/// - `all: WORD` of the whole
/// - `types: WORD A,B` of entity types, `uids: WORD Action::view` of uids
/// - `known: WORD A,B NAME` of what is known of types
fn answer(alloc: Global, schema: &ValidatorSchema, question: &str) -> Result<String, Fail> {
    let (kind, words) = question.split_once(": ").ok_or("no kind")?;
    let (word, of) = words.split_once(' ').unwrap_or((words, "-"));
    match kind {
        "all" => whole::answer(alloc, schema, word),
        "types" => Ok(lists::of_types(alloc, schema, word, &entity_types(alloc, of)?)?),
        "uids" => Ok(lists::of_uids(alloc, schema, word, &uids(alloc, of)?)?),
        "known" => known::answer(alloc, schema, word, of),
        _ => Err(unknown(question)),
    }
}
