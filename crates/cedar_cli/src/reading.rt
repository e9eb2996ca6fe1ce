//! Files, read as fragments.

ghost use Rattle.std.specs.Prelude.{◌≡◌, IfOk, MatchBool};

use crate::file_format::FileFormat;
use crate::files::{FileAccess, FileFault};
use crate::finding::{Finding, Source};
use crate::outcome::{Outcome, OutputFormat, at_fault};
use crate::read_fault::{ReadFault, fragment_of};
use crate::status::Status;
use cedar_ast::{M, Memory};
use cedar_json::JsonSchemaFault;
use cedar_schema_ast::json_schema::{Fragment, RawName};
use std::alloc::Global;

/// How files are read, and how what is at fault in them is reported.
#[derive(Clone, Copy, Drop)]
pub(crate) struct ReadOptions {
    /// The format of all of them, where it is given.
    pub(crate) given: Option<FileFormat>,
    /// How findings are reported.
    pub(crate) report: OutputFormat,
}

/// What was read of some files. Where memory runs out, that is remembered, and reported at the end.
#[derive(Drop)]
pub(crate) struct ReadFiles {
    /// The files, in the order in which they were named.
    pub(crate) sources: Vec<Source>,
    /// The fragments of those that are well formed, in the same order.
    pub(crate) fragments: Vec<Fragment<RawName>>,
    /// What is at fault in the others.
    pub(crate) findings: Vec<Finding>,
    /// Whether one of them couldn't be read.
    pub(crate) is_unread: bool,
    /// The format of all of them, where it is given.
    given: Option<FileFormat>,
    /// Whether memory ran out.
    is_refused: bool,
}

impl ReadFiles {
    /// Nothing read yet of files of the format that is given, if one is.
    fn new(alloc: Global, given: Option<FileFormat>) -> Self {
        ReadFiles {
            sources: Vec::new(alloc),
            fragments: Vec::new(alloc),
            findings: Vec::new(alloc),
            is_unread: false,
            given,
            is_refused: false,
        }
    }

    /// Adds a file.
    fn push_source(&mut self, source: Source) {
        self.is_refused |= self.sources.push(source).is_err();
    }

    /// A file with its text, and the format that this is read in.
    fn source(&self, name: String, text: String) -> Source {
        let format = match self.given {
            Some(format) => format,
            None => FileFormat::of(name.as_str(), text.as_str()),
        };
        Source { name, text, format }
    }

    /// Adds a file that is well formed.
    fn push(&mut self, source: Source, fragment: Fragment<RawName>) {
        self.push_source(source);
        self.is_refused |= self.fragments.push(fragment).is_err();
    }

    /// Adds a file that is at fault.
    fn push_fault(&mut self, source: Source, finding: Finding) {
        self.push_source(source);
        self.is_refused |= self.findings.push(finding).is_err();
    }

    /// Adds a file without its text, and says why.
    fn push_no_text(&mut self, name: String, kind: &'static str, why: String) {
        let finding = Finding::in_file(self.sources.len(), None, kind, why);
        let text = String::new(*name.allocator());
        let source = self.source(name, text);
        self.push_fault(source, finding);
    }
}

/// Adds a file whose text is no fragment.
fn push_no_fragment(alloc: Global, read: &mut ReadFiles, source: Source, fault: &ReadFault) {
    match fault.finding(alloc, read.sources.len(), source.text.as_str()) {
        Ok(finding) => read.push_fault(source, finding),
        Err(Memory) => read.is_refused = true,
    }
}

/// Adds a file with its text.
fn push_text(alloc: Global, read: &mut ReadFiles, name: String, text: String) {
    let source = read.source(name, text);
    match fragment_of(alloc, read.sources.len(), &source) {
        Ok(fragment) => read.push(source, fragment),
        Err(fault) => push_no_fragment(alloc, read, source, &fault),
    }
}

/// Adds a file in another encoding, as its first bytes say.
fn push_encoded(alloc: Global, read: &mut ReadFiles, name: String, encoding: &str) {
    let why = format!(in alloc;
        "the file begins with a byte order mark of {encoding}, and has to be UTF-8"
    );
    match why {
        Ok(why) => read.push_no_text(name, "NotUtf8", why),
        Err(_) => read.is_refused = true,
    }
}

/// Adds a file that is UTF-8 only up to a byte.
fn push_no_utf8(
    alloc: Global,
    read: &mut ReadFiles,
    name: String,
    bytes: &[u8],
    valid_up_to: usize,
) {
    match String::from_utf8_lossy(alloc, bytes) {
        Ok(text) => {
            let fault = ReadFault::Json(JsonSchemaFault::NotUtf8 { valid_up_to });
            let source = read.source(name, text);
            push_no_fragment(alloc, read, source, &fault);
        }
        Err(_) => read.is_refused = true,
    }
}

/// The encoding whose byte order mark some bytes begin with, if they begin with one. That of UTF-32
/// may begin as that of UTF-16 does.
fn encoding_of(bytes: &[u8]) -> Option<&'static str> {
    if bytes.starts_with(b"\xff\xfe\0\0") || bytes.starts_with(b"\0\0\xfe\xff") {
        Some("UTF-32")
    } else if bytes.starts_with(b"\xff\xfe") || bytes.starts_with(b"\xfe\xff") {
        Some("UTF-16")
    } else {
        None
    }
}

/// Adds a file whose bytes are no UTF-8 from a number on.
fn push_no_text(
    alloc: Global,
    read: &mut ReadFiles,
    name: String,
    bytes: &[u8],
    valid_up_to: usize,
) {
    match encoding_of(bytes) {
        Some(encoding) => push_encoded(alloc, read, name, encoding),
        None => push_no_utf8(alloc, read, name, bytes, valid_up_to),
    }
}

/// Adds a file whose bytes were read.
fn push_bytes(alloc: Global, read: &mut ReadFiles, name: String, bytes: Vec<u8>) {
    match String::from_utf8(bytes) {
        Ok(text) => push_text(alloc, read, name, text),
        Err(error) => {
            let valid_up_to = error.utf8_error().valid_up_to();
            push_no_text(alloc, read, name, error.as_bytes(), valid_up_to);
        }
    }
}

/// Adds what came of reading a file.
fn push_read(alloc: Global, read: &mut ReadFiles, name: String, given: Result<Vec<u8>, FileFault>) {
    match given {
        Ok(bytes) => push_bytes(alloc, read, name, bytes),
        Err(FileFault::Memory) => read.is_refused = true,
        Err(FileFault::Refused(why)) => {
            read.is_unread = true;
            read.push_no_text(name, "Unread", why);
        }
    }
}

/// Reads a file as a fragment, and adds it.
fn read_file<F: FileAccess>(alloc: Global, read: &mut ReadFiles, files: &mut F, name: &str) {
    match String::from_str(alloc, name) {
        Ok(owned) => push_read(alloc, read, owned, files.read(alloc, name)),
        Err(_) => read.is_refused = true,
    }
}

/// Reads each of some files as a fragment. Each that is at fault is reported.
fn read_files<F: FileAccess>(
    alloc: Global,
    files: &mut F,
    names: &[&str],
    given: Option<FileFormat>,
) -> ReadFiles {
    let mut read = ReadFiles::new(alloc, given);
    for name in names {
        read_file(alloc, &mut read, files, name);
    }
    read
}

/// What is reported of files that can't be read, or are at fault, where memory sufficed for them.
fn report_faults(alloc: Global, format: OutputFormat, read: &ReadFiles) -> M<Outcome>
    ensures { IfOk result (λ outcome. MatchBool read.now.is_unread
        (outcome.status ≡ Status.Unread) (outcome.status ≡ Status.Refused)) }
{
    if read.is_refused {
        return Err(Memory);
    }
    let status = if read.is_unread {
        Status::Unread
    } else {
        Status::Refused
    };
    at_fault(alloc, format, &read.sources, &read.findings, status)
}

/// The files, each read as a fragment; where some can't be read or are at fault, what is reported
/// of each of these.
pub(crate) fn well_formed<F: FileAccess>(
    alloc: Global,
    files: &mut F,
    names: &[&str],
    options: ReadOptions,
) -> Result<ReadFiles, M<Outcome>> {
    let read = read_files(alloc, files, names, options.given);
    if read.is_refused || !read.findings.is_empty() {
        return Err(report_faults(alloc, options.report, &read));
    }
    Ok(read)
}
