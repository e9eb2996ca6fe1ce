//! Files, built into one schema.

use crate::files::FileAccess;
use crate::finding::{Finding, Source, file_of};
use crate::limits::{Walk, beyond_limits};
use crate::outcome::{Outcome, OutputFormat, refused};
use crate::read_fault::fragment_of;
use crate::reading::{ReadFiles, ReadOptions, well_formed};
use crate::repeating::{Repeated, shortened};
use crate::text::Text;
use cedar_ast::{Loc, M, Memory};
use cedar_json::cedar_extensions;
use cedar_places::{Places, place_of, second_place_of};
use cedar_schema::{SchemaError, ValidatorSchema};
use cedar_schema_ast::json_schema::{Fragment, RawName};
use std::alloc::Global;

/// A schema, with the files that declare it.
#[derive(Drop)]
pub(crate) struct BuiltFiles {
    /// The files, in the order in which they were named.
    pub(crate) sources: Vec<Source>,
    /// The schema that they declare together.
    pub(crate) schema: ValidatorSchema,
}

/// The places that are shown for a refusal, as far as they are known.
#[derive(Clone, Copy)]
struct TwoPlaces {
    /// That of what the refusal names.
    first: Option<Loc>,
    /// That of the second thing that it is about.
    second: Option<Loc>,
}

/// The places of a refusal that a fragment has.
fn places_of(alloc: Global, fragment: &Fragment<RawName>, error: &SchemaError) -> M<TwoPlaces> {
    let places = Places::of(alloc, fragment)?;
    Ok(TwoPlaces {
        first: place_of(&places, error),
        second: second_place_of(&places, error),
    })
}

/// The places of a refusal that a file has, of which the text is read once more.
fn places_in(alloc: Global, file: usize, source: &Source, error: &SchemaError) -> M<TwoPlaces> {
    match fragment_of(alloc, file, source) {
        Ok(fragment) => places_of(alloc, &fragment, error),
        Err(fault) if fault.is_memory() => Err(Memory),
        Err(_) => Ok(TwoPlaces {
            first: None,
            second: None,
        }),
    }
}

/// The places of a refusal, each of the first file that has it.
fn places_of_refusal(alloc: Global, sources: &[Source], error: &SchemaError) -> M<TwoPlaces> {
    let (mut first, mut second) = (None, None);
    for (file, source) in sources.iter().enumerate() {
        let here = places_in(alloc, file, source, error)?;
        first = first.or(here.first);
        second = second.or(here.second);
    }
    Ok(TwoPlaces { first, second })
}

/// The number of the file that a place stands in, or of the only one.
fn file_at(sources: &[Source], loc: Option<Loc>) -> Option<usize> {
    match file_of(loc) {
        None if sources.len() == 1 => Some(0),
        file => file,
    }
}

/// Whether a refusal is of two definitions of one thing.
fn is_of_two_definitions(error: &SchemaError) -> bool {
    matches!(
        error,
        SchemaError::DuplicateEntityType(_)
            | SchemaError::DuplicateCommonType(_)
            | SchemaError::DuplicateAction(_)
    )
}

/// Whether two names are of one file.
fn is_one_file<F: FileAccess>(files: &mut F, one: &str, other: &str) -> bool {
    one != "-" && other != "-" && files.is_same(one, other)
}

/// A file that is given twice.
#[derive(Clone, Copy, Drop)]
struct Twice<'a> {
    /// The name that it is given by in one place.
    name: &'a str,
    /// The name that it is given by in the other.
    other_name: &'a str,
    /// The number of that in the other place.
    other: usize,
}

/// The file that is given twice, where the two definitions that a refusal is of stand in one.
fn given_twice<'a, F: FileAccess>(
    files: &mut F,
    sources: &'a [Source],
    error: &SchemaError,
    places: TwoPlaces,
) -> Option<Twice<'a>> {
    let (one, other) = (file_of(places.second)?, file_of(places.first)?);
    let name = sources.get(one)?.name.as_str();
    let other_name = sources.get(other)?.name.as_str();
    if one != other && is_of_two_definitions(error) && is_one_file(files, name, other_name) {
        Some(Twice {
            name,
            other_name,
            other,
        })
    } else {
        None
    }
}

/// What is reported of a file that is given twice.
fn twice_finding(alloc: Global, twice: Twice<'_>) -> M<Finding> {
    let mut why = Text::new(alloc);
    why.push_str("the file is given twice");
    if twice.name != twice.other_name {
        write!(why, ", also as {}", Repeated(twice.name));
    }
    let why = why.whole()?;
    Ok(Finding::in_file(twice.other, None, "GivenTwice", why))
}

/// What is reported of declarations that no schema is built of.
fn schema_finding(
    alloc: Global,
    sources: &[Source],
    error: &SchemaError,
    places: TwoPlaces,
) -> M<Finding> {
    let TwoPlaces { first, second } = places;
    Ok(Finding {
        file: file_at(sources, first),
        loc: first,
        kind: error.kind(),
        message: shortened(format!(in alloc; "{error}")?)?,
        other: second,
    })
}

/// What is reported where no schema is built.
fn not_built<F: FileAccess>(
    alloc: Global,
    files: &mut F,
    format: OutputFormat,
    sources: &[Source],
    error: &SchemaError,
) -> M<Outcome> {
    if let SchemaError::Memory(_) = error {
        return Err(Memory);
    }
    let places = places_of_refusal(alloc, sources, error)?;
    let finding = match given_twice(files, sources, error, places) {
        Some(twice) => twice_finding(alloc, twice)?,
        None => schema_finding(alloc, sources, error, places)?,
    };
    refused(alloc, format, sources, finding)
}

/// The same of a refusal that is done with then.
fn refusal<F: FileAccess>(
    alloc: Global,
    files: &mut F,
    format: OutputFormat,
    sources: &[Source],
    error: SchemaError,
) -> M<Outcome> {
    not_built(alloc, files, format, sources, &error)
}

/// The schema that fragments declare, over the extensions of Cedar.
fn schema_of(
    alloc: Global,
    fragments: Vec<Fragment<RawName>>,
) -> Result<ValidatorSchema, SchemaError> {
    let extensions = cedar_extensions(alloc)?;
    ValidatorSchema::from_raw_fragments(alloc, fragments, &extensions)
}

/// That the types of files are within the limits of a command.
fn check_limits(
    alloc: Global,
    format: OutputFormat,
    read: &ReadFiles,
    walk: Walk,
) -> Result<(), M<Outcome>> {
    match beyond_limits(alloc, &read.fragments, walk) {
        Ok(None) => Ok(()),
        Ok(Some(found)) => Err(refused(alloc, format, &read.sources, found)),
        Err(refused) => Err(Err(refused)),
    }
}

/// The schema that files declare together, with the files; where there is none, what is reported.
fn built_of<F: FileAccess>(
    alloc: Global,
    files: &mut F,
    read: ReadFiles,
    format: OutputFormat,
) -> Result<BuiltFiles, M<Outcome>> {
    let ReadFiles {
        sources,
        fragments,
        ..
    } = read;
    match schema_of(alloc, fragments) {
        Ok(schema) => Ok(BuiltFiles { sources, schema }),
        Err(error) => Err(refusal(alloc, files, format, &sources, error)),
    }
}

/// The schema that files declare together, with the files; where there is none, or where its types
/// are beyond the limits of a command, what is reported.
pub(crate) fn built<F: FileAccess>(
    alloc: Global,
    files: &mut F,
    names: &[&str],
    options: ReadOptions,
    walk: Walk,
) -> Result<BuiltFiles, M<Outcome>> {
    let read = well_formed(alloc, files, names, options)?;
    check_limits(alloc, options.report, &read, walk)?;
    built_of(alloc, files, read, options.report)
}
