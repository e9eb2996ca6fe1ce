//! Files, linked: what they declare together as one fragment.

ghost use Rattle.std.specs.Prelude.{◌≡◌, IfOk, IfSome, string_bytes};
ghost use Rattle.cedar_cli.specs.Linked.{IsLinked, fragment_text};

use crate::building::{BuiltFiles, built};
use crate::file_format::FileFormat;
use crate::files::{FileAccess, FileFault};
use crate::finding::{Finding, Source};
use crate::json_lines::shown_json;
use crate::left_out::{LeftOut, left_out};
use crate::limits::Walk;
use crate::outcome::{Outcome, OutputFormat, refused};
use crate::reading::ReadOptions;
use crate::repeating::Repeated;
use crate::shown_text::shown_text;
use crate::status::Status;
use crate::text::Text;
use crate::unwritable::unwritable_text;
use cedar_ast::{M, Memory};
use cedar_json_writer::{WriteFault, fragment_to_json};
use cedar_schema::{ValidatorSchema, WriteBackFault};
use cedar_schema_ast::json_schema::{Fragment, RawName};
use cedar_schema_text_writer::{TextWriteFault, fragment_to_text};
use std::alloc::Global;

/// Where a text goes, and its format.
#[derive(Clone, Copy, Drop)]
pub(crate) struct Target<'a> {
    /// Its format.
    pub(crate) format: FileFormat,
    /// The name of the file; None is standard output.
    pub(crate) output: Option<&'a str>,
}

/// The text of a fragment with a line end, or None where the format can't say it.
fn text_of(alloc: Global, fragment: &Fragment<RawName>) -> M<Option<String>>
    ensures { IfOk result (λ given. IfSome given (λ text.
        string_bytes text ≡ fragment_text fragment.now)) }
{
    match fragment_to_json(alloc, fragment) {
        Ok(mut text) => {
            text.push('\n')?;
            Ok(Some(text))
        }
        Err(WriteFault::Memory) => Err(Memory),
        Err(WriteFault::Unwritable(_)) => Ok(None),
    }
}

/// The text of the fragment that declares a schema again, or None where there is none or the format
/// can't say it.
fn linked_text(alloc: Global, schema: &ValidatorSchema) -> M<Option<String>>
    ensures { IfOk result (λ given. IfSome given (λ text.
        IsLinked schema.now (string_bytes text))) }
{
    match schema.to_json_schema(alloc) {
        Ok(fragment) => text_of(alloc, &fragment),
        Err(WriteBackFault::Memory) => Err(Memory),
        Err(WriteBackFault::Unwritable) => Ok(None),
    }
}

/// The same in Cedar's syntax.
fn linked_syntax(alloc: Global, schema: &ValidatorSchema) -> M<Option<String>> {
    let fragment = match schema.to_json_schema(alloc) {
        Ok(fragment) => fragment,
        Err(WriteBackFault::Memory) => return Err(Memory),
        Err(WriteBackFault::Unwritable) => return Ok(None),
    };
    match fragment_to_text(alloc, &fragment, &[]) {
        Ok(mut text) => {
            text.push('\n')?;
            Ok(Some(text))
        }
        Err(TextWriteFault::Memory) => Err(Memory),
        Err(TextWriteFault::Unwritable { .. }) => Ok(None),
    }
}

/// What is said of what was left out of some files.
fn left_out_note(alloc: Global, sources: &[Source]) -> M<String> {
    let LeftOut {
        annotations,
        comments,
        common_types,
    } = left_out(alloc, sources)?;
    let mut note = Text::new(alloc);
    write!(note, "left out: {annotations} annotations, ");
    if comments > 0 {
        write!(note, "{comments} comments, ");
    }
    write!(note, "{common_types} common types");
    note.push_str(" (written out where they are used)\n");
    note.whole()
}

/// What is reported of a schema that no fragment declares again.
fn unwritable(alloc: Global, format: OutputFormat, it: &BuiltFiles) -> M<Outcome>
    ensures { IfOk result (λ outcome. outcome.status ≡ Status.Refused) }
{
    let why = unwritable_text(alloc, &it.schema)?;
    let finding = Finding::general("Unwritable", why);
    refused(alloc, format, &it.sources, finding)
}

/// What is said of a file that couldn't be written.
pub(crate) fn unwritten_note(alloc: Global, name: &str, why: &str) -> M<String> {
    let mut note = Text::new(alloc);
    note.write_escaped(format_args!("{}: Unwritten: {why}", Repeated(name)));
    note.push('\n');
    note.whole()
}

/// The outcome where a text is written to a file.
fn written<F: FileAccess>(
    alloc: Global,
    files: &mut F,
    name: &str,
    text: &str,
    notes: String,
) -> M<Outcome> {
    match files.replace(alloc, name, text) {
        Ok(()) => Ok(Outcome::noted(alloc, notes, Status::Done)),
        Err(FileFault::Memory) => Err(Memory),
        Err(FileFault::Refused(why)) => {
            let notes = unwritten_note(alloc, name, why.as_str())?;
            Ok(Outcome::noted(alloc, notes, Status::Unwritten))
        }
    }
}

/// A text in a format, as standard output shows it.
fn shown(format: FileFormat, text: String) -> M<String> {
    match format {
        FileFormat::Json => shown_json(text),
        FileFormat::Text => shown_text(text),
    }
}

/// Where a text goes: to standard output, as it is shown there, or to a file of a name.
pub(crate) fn put<F: FileAccess>(
    alloc: Global,
    files: &mut F,
    target: Target<'_>,
    text: String,
    notes: String,
) -> M<Outcome> {
    match target.output {
        Some(name) => written(alloc, files, name, text.as_str(), notes),
        None => Ok(Outcome {
            text: shown(target.format, text)?,
            notes,
            status: Status::Done,
        }),
    }
}

/// Whether a file is one of those that are read.
pub(crate) fn is_read<F: FileAccess>(files: &mut F, output: &str, names: &[&str]) -> bool {
    for name in names {
        if *name != "-" && files.is_same(output, name) {
            return true;
        }
    }
    false
}

/// Writes what a schema declares as one fragment.
fn link_built<F: FileAccess>(
    alloc: Global,
    files: &mut F,
    it: &BuiltFiles,
    report: OutputFormat,
    target: Target<'_>,
) -> M<Outcome> {
    let text = match target.format {
        FileFormat::Json => linked_text(alloc, &it.schema)?,
        FileFormat::Text => linked_syntax(alloc, &it.schema)?,
    };
    match text {
        Some(text) => {
            let notes = left_out_note(alloc, &it.sources)?;
            put(alloc, files, target, text, notes)
        }
        None => unwritable(alloc, report, it),
    }
}

/// Writes what files declare together as one fragment.
pub(crate) fn link<F: FileAccess>(
    alloc: Global,
    files: &mut F,
    names: &[&str],
    options: ReadOptions,
    target: Target<'_>,
) -> M<Outcome> {
    match built(alloc, files, names, options, Walk::WrittenOut) {
        Ok(it) => link_built(alloc, files, &it, options.report, target),
        Err(report) => report,
    }
}
