//! Files, laid out.

ghost use Rattle.std.specs.Prelude.{◌≡◌, IfOk};

use crate::file_format::FileFormat;
use crate::files::{FileAccess, FileFault};
use crate::finding::{Finding, Source};
use crate::json_lines::shown_json;
use crate::layout::laid_out;
use crate::linking::unwritten_note;
use crate::outcome::{Outcome, OutputFormat, at_fault};
use crate::reading::{ReadOptions, well_formed};
use crate::shown_text::shown_text;
use crate::status::Status;
use crate::text::Text;
use cedar_ast::{M, Memory};
use cedar_schema_text_layout::lay_out;
use cedar_schema_tokens::TokenFault;
use std::alloc::Global;

/// What becomes of layouts.
#[derive(Clone, Copy, Drop)]
pub(crate) enum Use {
    /// That of the only file is printed.
    Print,
    /// Files are told that have another one.
    Test,
    /// Each is written over its file.
    Write,
}

/// The layout of a file in Cedar's JSON format.
fn json_layout(alloc: Global, text: &str) -> M<Option<String>> {
    match laid_out(alloc, text)? {
        Some(layout) => Ok(Some(shown_json(layout)?)),
        None => Ok(None),
    }
}

/// The layout of a file in Cedar's syntax, with a line end where it holds something.
fn text_layout(alloc: Global, text: &str) -> M<Option<String>> {
    match lay_out(alloc, text, 0) {
        Ok(layout) if layout.is_empty() => Ok(Some(layout)),
        Ok(mut layout) => {
            layout.push('\n')?;
            Ok(Some(layout))
        }
        Err(TokenFault::Memory) => Err(Memory),
        Err(_) => Ok(None),
    }
}

/// The layout of a file, or its own text where that can't be read.
fn layout_of(alloc: Global, source: &Source) -> M<String> {
    let layout = match source.format {
        FileFormat::Json => json_layout(alloc, source.text.as_str())?,
        FileFormat::Text => text_layout(alloc, source.text.as_str())?,
    };
    match layout {
        Some(layout) => Ok(layout),
        None => Ok(String::from_str(alloc, source.text.as_str())?),
    }
}

/// The layout of the first of some files, which is the only one.
fn printed(alloc: Global, sources: &[Source]) -> M<Outcome> {
    let Some(source) = sources.first() else {
        return Ok(Outcome::done(alloc, String::new(alloc)));
    };
    let layout = layout_of(alloc, source)?;
    let text = match source.format {
        FileFormat::Json => layout,
        FileFormat::Text => shown_text(layout)?,
    };
    Ok(Outcome::done(alloc, text))
}

/// That a file isn't laid out, if it isn't.
fn difference(alloc: Global, number: usize, source: &Source) -> M<Option<Finding>> {
    let layout = layout_of(alloc, source)?;
    if layout.as_str() == source.text.as_str() {
        return Ok(None);
    }
    let why = "the file isn't laid out as the format is; `cedar_check format` writes it so";
    let message = String::from_str(alloc, why)?;
    Ok(Some(Finding::in_file(number, None, "Layout", message)))
}

/// Which files aren't laid out.
fn tested(alloc: Global, report: OutputFormat, sources: &[Source]) -> M<Outcome> {
    let mut findings = Vec::new(alloc);
    for (number, source) in sources.iter().enumerate() {
        if let Some(finding) = difference(alloc, number, source)? {
            findings.push(finding)?;
        }
    }
    if findings.is_empty() {
        return Ok(Outcome::done(alloc, String::new(alloc)));
    }
    at_fault(alloc, report, sources, &findings, Status::Refused)
}

/// Files that are written over.
#[derive(Drop)]
struct Written {
    /// What is said on standard output: a line for each file that is written.
    text: Text,
    /// What is said on standard error.
    notes: Text,
    /// The status of the whole.
    status: Status,
}

/// That a file isn't written, and why.
fn push_unwritten(alloc: Global, written: &mut Written, name: &str, why: &str) -> M<()> {
    let note = unwritten_note(alloc, name, why)?;
    written.notes.push_str(note.as_str());
    written.status = Status::Unwritten;
    Ok(())
}

/// Writes the layout of a file over it, unless it has that already.
fn write_over<F: FileAccess>(
    alloc: Global,
    files: &mut F,
    written: &mut Written,
    source: &Source,
) -> M<()> {
    let layout = layout_of(alloc, source)?;
    if layout.as_str() == source.text.as_str() {
        return Ok(());
    }
    let name = source.name.as_str();
    if !files.is_kept(name) {
        return push_unwritten(alloc, written, name, "it is no regular file");
    }
    match files.replace(alloc, name, layout.as_str()) {
        Ok(()) => {
            written.text.push_escaped(name);
            written.text.push_str(": written\n");
            Ok(())
        }
        Err(FileFault::Memory) => Err(Memory),
        Err(FileFault::Refused(why)) => push_unwritten(alloc, written, name, why.as_str()),
    }
}

/// Writes the layout of each file over it.
fn write_all<F: FileAccess>(alloc: Global, files: &mut F, sources: &[Source]) -> M<Outcome> {
    let mut written = Written {
        text: Text::new(alloc),
        notes: Text::new(alloc),
        status: Status::Done,
    };
    for source in sources {
        write_over(alloc, files, &mut written, source)?;
    }
    let Written {
        text,
        notes,
        status,
    } = written;
    Ok(Outcome {
        text: text.whole()?,
        notes: notes.whole()?,
        status,
    })
}

/// Lays files out that are well formed: prints the layout of the only one, tells which have another
/// one, or writes each over its file.
pub(crate) fn format<F: FileAccess>(
    alloc: Global,
    files: &mut F,
    names: &[&str],
    options: ReadOptions,
    how: Use,
) -> M<Outcome> {
    match well_formed(alloc, files, names, options) {
        Ok(read) => match how {
            Use::Print => printed(alloc, &read.sources),
            Use::Test => tested(alloc, options.report, &read.sources),
            Use::Write => write_all(alloc, files, &read.sources),
        },
        Err(report) => report,
    }
}
