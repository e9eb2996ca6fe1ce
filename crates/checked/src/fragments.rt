//! Fragments of Cedar's schema text. A text that is none fails by what is at fault in it.

use cedar_schema_ast::json_schema::{Fragment, RawName};
use cedar_schema_text::fragment_from_text;
use std::alloc::Global;
use std::test::Fail;

/// The fragment of a text, whose places are in the text of a number.
pub fn fragment_of(alloc: Global, text: &str, number: u32) -> Result<Fragment<RawName>, Fail> {
    Ok(fragment_from_text(alloc, text, number)?)
}

/// A fragment of each text, in the order of their numbers, which begin with 0.
pub fn fragments_of(alloc: Global, texts: &[&str]) -> Result<Vec<Fragment<RawName>>, Fail> {
    let mut fragments = Vec::new(alloc);
    let mut number = 0u32;
    for text in texts {
        fragments.push(fragment_of(alloc, text, number)?)?;
        number = number.saturating_add(1);
    }
    Ok(fragments)
}
