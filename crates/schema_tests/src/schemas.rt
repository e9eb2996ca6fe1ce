//! Schemas of Cedar's schema text, and answers as texts.

use cedar_schema::below::M;
use cedar_schema::{SchemaError, ValidatorSchema};
use checked::{fragments_of, on_one_line, sample_extensions};
use schema_lines::lines_of;
use std::alloc::Global;
use std::test::Fail;

/// Texts in Cedar's schema syntax, which declare one schema together.
pub(crate) type Texts = &'static [&'static str];

/// The schema of texts, over the sample extension. Texts that are refused fail.
pub(crate) fn schema_of(alloc: Global, texts: &[&str]) -> Result<ValidatorSchema, Fail> {
    let extensions = sample_extensions(alloc)?;
    let fragments = fragments_of(alloc, texts)?;
    Ok(ValidatorSchema::from_raw_fragments(alloc, fragments, &extensions)?)
}

/// What validation gives of a copy of a schema. A copy that is refused fails.
pub(crate) fn validated_copy(
    alloc: Global,
    schema: &ValidatorSchema,
) -> Result<ValidatorSchema, Fail> {
    let extensions = sample_extensions(alloc)?;
    Ok(schema.clone()?.try_validate(alloc, &extensions)?)
}

/// The lines of a schema, with `; ` between them.
pub(crate) fn shown(alloc: Global, schema: &ValidatorSchema) -> M<String> {
    on_one_line(alloc, &lines_of(alloc, schema)?)
}

/// A refusal, which goes with its text: its kind, and what it prints.
fn refusal_text(alloc: Global, refused: SchemaError) -> M<String> {
    Ok(format!(in alloc; "{refused:?}")?)
}

/// An answer, as text: the lines of the schema, or the refusal.
pub(crate) fn answer_text(alloc: Global, built: Result<ValidatorSchema, SchemaError>) -> M<String> {
    match built {
        Ok(schema) => shown(alloc, &schema),
        Err(refused) => refusal_text(alloc, refused),
    }
}
