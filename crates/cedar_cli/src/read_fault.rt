//! Why a file isn't read as a fragment, whatever its format.

use crate::fault_text::{fault_loc, fault_text, kind_word};
use crate::file_format::FileFormat;
use crate::finding::{Finding, Source};
use crate::first_key::first_key;
use crate::text_fault;
use cedar_ast::{M, Memory};
use cedar_json::{JsonSchemaFault, fragment_from_json};
use cedar_schema_ast::json_schema::{Fragment, RawName};
use cedar_schema_text::{TextFault, fragment_from_text};
use std::alloc::Global;

/// Why a file isn't read as a fragment.
#[derive(Drop)]
pub(crate) enum ReadFault {
    /// It should be Cedar's JSON format.
    Json(JsonSchemaFault),
    /// It should be Cedar's own syntax.
    Text(TextFault),
}

/// The number of a file in places.
pub(crate) fn source_number(file: usize) -> u32 {
    u32::try_from(file).unwrap_or(u32::MAX)
}

/// The fragment that the file of a number is.
pub(crate) fn fragment_of(
    alloc: Global,
    file: usize,
    source: &Source,
) -> Result<Fragment<RawName>, ReadFault> {
    let (text, number) = (source.text.as_str(), source_number(file));
    match source.format {
        FileFormat::Json => match fragment_from_json(alloc, text, number) {
            Ok(fragment) => Ok(fragment),
            Err(fault) => Err(ReadFault::Json(fault)),
        },
        FileFormat::Text => match fragment_from_text(alloc, text, number) {
            Ok(fragment) => Ok(fragment),
            Err(fault) => Err(ReadFault::Text(fault)),
        },
    }
}

/// What is reported of a file that isn't Cedar's JSON format.
pub(crate) fn json_finding(
    alloc: Global,
    file: usize,
    text: &str,
    fault: &JsonSchemaFault,
) -> M<Finding> {
    if let JsonSchemaFault::Memory = fault {
        return Err(Memory);
    }
    let other = first_key(alloc, text, fault)?;
    Ok(Finding {
        file: Some(file),
        loc: fault_loc(source_number(file), text, fault),
        kind: kind_word(fault),
        message: fault_text(alloc, text, fault)?,
        other,
    })
}

/// What is reported of a file that isn't Cedar's own syntax.
fn text_finding(alloc: Global, file: usize, text: &str, fault: &TextFault) -> M<Finding> {
    if let TextFault::Memory = fault {
        return Err(Memory);
    }
    Ok(Finding {
        file: Some(file),
        loc: text_fault::loc(source_number(file), fault),
        kind: text_fault::kind_word(fault),
        message: text_fault::words(alloc, text, fault)?,
        other: text_fault::first_place(fault),
    })
}

impl ReadFault {
    /// Whether memory ran out.
    pub(crate) fn is_memory(&self) -> bool {
        match self {
            ReadFault::Json(fault) => matches!(fault, JsonSchemaFault::Memory),
            ReadFault::Text(fault) => matches!(fault, TextFault::Memory),
        }
    }

    /// What is reported of the file of a number, with its text.
    pub(crate) fn finding(&self, alloc: Global, file: usize, text: &str) -> M<Finding> {
        match self {
            ReadFault::Json(fault) => json_finding(alloc, file, text, fault),
            ReadFault::Text(fault) => text_finding(alloc, file, text, fault),
        }
    }
}
