//! What is found to be at fault in files, and how it is reported.

use crate::file_format::FileFormat;
use crate::json_lines::Object;
use crate::position::{Position, position_of, push_line_with_caret};
use crate::repeating::Repeated;
use crate::text::Text;
use cedar_ast::Loc;

/// A file that was asked for.
#[derive(Drop)]
pub(crate) struct Source {
    /// The name by which it was asked for.
    pub(crate) name: String,
    /// Its text, or what of it is text; nothing where it couldn't be read.
    pub(crate) text: String,
    /// The format that it is read in.
    pub(crate) format: FileFormat,
}

/// What is at fault.
#[derive(Drop)]
pub(crate) struct Finding {
    /// The number of the file that is at fault, if it is one.
    pub(crate) file: Option<usize>,
    /// The place in it, if one fits.
    pub(crate) loc: Option<Loc>,
    /// The kind of fault.
    pub(crate) kind: &'static str,
    /// What is at fault, in words.
    pub(crate) message: String,
    /// The other place that belongs to it.
    pub(crate) other: Option<Loc>,
}

impl Finding {
    /// What is at fault in no file by itself.
    pub(crate) fn general(kind: &'static str, message: String) -> Self {
        Finding {
            file: None,
            loc: None,
            kind,
            message,
            other: None,
        }
    }

    /// What is at fault in a file, at a place if one fits.
    pub(crate) fn in_file(
        file: usize,
        loc: Option<Loc>,
        kind: &'static str,
        message: String,
    ) -> Self {
        Finding {
            file: Some(file),
            loc,
            kind,
            message,
            other: None,
        }
    }
}

/// The number of the file that a place stands in.
pub(crate) fn file_of(loc: Option<Loc>) -> Option<usize> {
    match loc {
        Some(loc) => Some(loc.source as usize),
        None => None,
    }
}

/// The source of a number, if there is one.
fn source_at(sources: &[Source], number: Option<usize>) -> Option<&Source> {
    match number {
        Some(number) => sources.get(number),
        None => None,
    }
}

/// The position of a place in a file, if there is one.
fn position_in(source: &Source, loc: Option<Loc>) -> Option<Position> {
    let at = loc?.start as usize;
    Some(position_of(source.text.as_str(), at))
}

/// Adds `FILE:LINE:COLUMN: `, or `FILE: ` where there is no position. With a position the name is
/// whole however long it is, so that an editor finds the file.
fn push_where(text: &mut Text, source: &Source, position: Option<Position>) {
    match position {
        Some(Position { line, column }) => {
            text.push_escaped(source.name.as_str());
            write!(text, ":{line}:{column}: ");
        }
        None => {
            text.write_escaped(Repeated(source.name.as_str()));
            text.push_str(": ");
        }
    }
}

/// Adds the line of a position with `^` below it, if there is one.
fn push_line_at(text: &mut Text, source: &Source, position: Option<Position>) {
    if let Some(position) = position {
        push_line_with_caret(text, source.text.as_str(), position);
    }
}

/// Adds the kind and the words of a finding.
fn push_words(text: &mut Text, finding: &Finding) {
    text.push_str(finding.kind);
    text.push_str(": ");
    text.push_escaped(finding.message.as_str());
    text.push('\n');
}

/// Adds the lines that tell a finding of a file without its other place.
fn push_in_file(text: &mut Text, source: &Source, finding: &Finding) {
    let position = position_in(source, finding.loc);
    push_where(text, source, position);
    push_words(text, finding);
    push_line_at(text, source, position);
}

/// Adds the lines that tell the other place of a finding, if there is one.
fn push_other(text: &mut Text, sources: &[Source], other: Option<Loc>) {
    if let Some(source) = source_at(sources, file_of(other)) {
        let position = position_in(source, other);
        push_where(text, source, position);
        text.push_str("the other place\n");
        push_line_at(text, source, position);
    }
}

/// Adds the lines that tell a finding: its place, its kind and its words, the line with `^` under
/// the place, and then the same of its other place.
pub(crate) fn push_finding(text: &mut Text, sources: &[Source], finding: &Finding) {
    match source_at(sources, finding.file) {
        Some(source) => push_in_file(text, source, finding),
        None => push_words(text, finding),
    }
    push_other(text, sources, finding.other);
}

/// Writes a member whose value is a position: `{"line": .., "column": ..}`.
fn write_position(object: &mut Object, key: &str, text: &str, at: u32) {
    let position = position_of(text, at as usize);
    object.key(key);
    object.begin_object();
    object.number("line", position.line);
    object.number("column", position.column);
    object.end_object();
}

/// Writes the members that say where something is.
fn write_place(object: &mut Object, source: &Source, loc: Option<Loc>) {
    object.text("file", source.name.as_str());
    if let Some(loc) = loc {
        write_position(object, "start", source.text.as_str(), loc.start);
        write_position(object, "end", source.text.as_str(), loc.stop);
    }
}

/// Writes the other place of a finding as an object, if there is one.
fn write_other(object: &mut Object, sources: &[Source], other: Option<Loc>) {
    if let Some(source) = source_at(sources, file_of(other)) {
        object.begin_object();
        write_place(object, source, other);
        object.end_object();
    }
}

/// Writes the members that tell a finding.
fn write_finding(object: &mut Object, sources: &[Source], finding: &Finding) {
    if let Some(source) = source_at(sources, finding.file) {
        write_place(object, source, finding.loc);
    }
    object.text("kind", finding.kind);
    object.text("message", finding.message.as_str());
    object.key("related");
    object.begin_array();
    write_other(object, sources, finding.other);
    object.end_array();
}

/// Adds the object of JSON that tells a finding, as a line.
pub(crate) fn push_finding_object(text: &mut Text, sources: &[Source], finding: &Finding) {
    let mut object = Object::begin(text.alloc());
    write_finding(&mut object, sources, finding);
    object.push_to(text);
}
