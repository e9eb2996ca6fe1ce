//! Files, translated: what each declares, in the other format.

use crate::file_format::FileFormat;
use crate::files::{FileAccess, FileFault};
use crate::finding::{Finding, Source};
use crate::left_out::{LeftOut, left_out_of};
use crate::linking::{Target, put, unwritten_note};
use crate::outcome::{Outcome, at_fault};
use crate::reading::{ReadFiles, ReadOptions, well_formed};
use crate::repeating::shortened;
use crate::status::Status;
use crate::text::Text;
use cedar_ast::{Loc, M, Memory};
use cedar_json_writer::{Unwritable as JsonUnwritable, WriteFault, fragment_to_json};
use cedar_schema_ast::json_schema::{ActionType, Fragment, RawName, Type};
use cedar_schema_text_writer::{Declared, Place, TextWriteFault, fragment_to_text};
use std::alloc::Global;
use std::collections::BTreeMap;

/// What a file is translated to.
#[derive(Drop)]
struct Translation {
    /// Its format.
    format: FileFormat,
    /// Its text, with a line end.
    text: String,
}

/// A file with what stands beside it.
#[derive(Clone, Copy, Drop)]
struct Given<'a> {
    /// The number of the file.
    number: usize,
    /// Its fragment.
    fragment: &'a Fragment<RawName>,
    /// The fragments of all files.
    all: &'a [Fragment<RawName>],
}

/// What Cedar's JSON format can't say, in words.
fn push_unwritable(words: &mut Text, what: JsonUnwritable) {
    match what {
        JsonUnwritable::TypeWord(word) => {
            write!(
                words,
                "a context can't be named `{word}` there, which is a form of type"
            );
        }
        JsonUnwritable::Arguments(count) => write!(words, "a call has {count} arguments"),
        JsonUnwritable::LoneKey(key) => {
            write!(
                words,
                "a record has the key {key} alone, which says another thing there"
            );
        }
        JsonUnwritable::TooDeep => words.push_str(
            "types nest deeper than the 128 levels of a file",
        ),
    }
}

/// Where the context of an action is named by a word, if it is.
fn context_named(action: &ActionType<RawName>, word: &str) -> Option<Loc> {
    let requests = action.applies_to.as_ref()?;
    let Type::CommonTypeRef { type_name, loc } = &requests.context.0 else {
        return None;
    };
    let name = type_name.as_internal();
    if name.is_unqualified() && name.basename().as_str() == word {
        *loc
    } else {
        None
    }
}

/// Where the first context of some actions stands that is named by a word.
fn first_context_named(actions: &BTreeMap<String, ActionType<RawName>>, word: &str) -> Option<Loc> {
    for (_, action) in actions {
        if let Some(loc) = context_named(action, word) {
            return Some(loc);
        }
    }
    None
}

/// Where something stands that Cedar's JSON format can't say, if that is known.
fn json_place(fragment: &Fragment<RawName>, what: JsonUnwritable) -> Option<Loc> {
    let JsonUnwritable::TypeWord(word) = what else {
        return None;
    };
    for (_, definition) in &fragment.0 {
        if let Some(loc) = first_context_named(&definition.actions, word) {
            return Some(loc);
        }
    }
    None
}

/// What is reported of a fragment that Cedar's JSON format can't say.
fn no_json(alloc: Global, given: Given<'_>, what: JsonUnwritable) -> M<Finding> {
    let mut words = Text::new(alloc);
    words.push_str("Cedar's JSON format can't say it: ");
    push_unwritable(&mut words, what);
    let words = words.whole()?;
    let loc = json_place(given.fragment, what);
    Ok(Finding::in_file(given.number, loc, "Unwritable", words))
}

/// Where a declaration stands that Cedar's syntax can't say.
fn place_of(fragment: &Fragment<RawName>, place: &Place) -> Option<Loc> {
    let definition = fragment.0.get(&place.namespace)?;
    match &place.declared {
        Declared::CommonType(id) => definition.common_types.get(id)?.loc,
        Declared::EntityType(id) => definition.entity_types.get(id)?.loc,
        Declared::Action(id) => definition.actions.get(id.as_str())?.loc,
    }
}

/// What is reported of a fragment that Cedar's syntax can't say.
fn no_text(alloc: Global, given: Given<'_>, fault: &TextWriteFault) -> M<Finding> {
    let TextWriteFault::Unwritable { place, .. } = fault else {
        return Err(Memory);
    };
    let loc = place_of(given.fragment, place);
    let words = format!(in alloc; "Cedar's syntax can't say it: {fault}")?;
    let words = shortened(words)?;
    Ok(Finding::in_file(given.number, loc, "Unwritable", words))
}

/// A file in Cedar's JSON format, or what of it that can't say.
fn as_json(alloc: Global, given: Given<'_>) -> Result<String, M<Finding>> {
    match fragment_to_json(alloc, given.fragment) {
        Ok(text) => Ok(text),
        Err(WriteFault::Memory) => Err(Err(Memory)),
        Err(WriteFault::Unwritable(what)) => Err(no_json(alloc, given, what)),
    }
}

/// A file in Cedar's syntax, or what of it that can't say.
fn as_text(alloc: Global, given: Given<'_>) -> Result<String, M<Finding>> {
    match fragment_to_text(alloc, given.fragment, given.all) {
        Ok(text) => Ok(text),
        Err(fault) => Err(no_text(alloc, given, &fault)),
    }
}

/// A text with a line end.
fn with_end(mut text: String) -> M<String> {
    text.push('\n')?;
    Ok(text)
}

/// What a file is translated to, or what of it can't be.
fn translated(
    alloc: Global,
    given: Given<'_>,
    format: FileFormat,
) -> Result<Translation, M<Finding>> {
    let text = match format {
        FileFormat::Json => as_json(alloc, given)?,
        FileFormat::Text => as_text(alloc, given)?,
    };
    match with_end(text) {
        Ok(text) => Ok(Translation { format, text }),
        Err(refused) => Err(Err(refused)),
    }
}

/// What files are translated to, in their order.
#[derive(Drop)]
struct Translations {
    /// What those are translated to that can be.
    done: Vec<Translation>,
    /// What of the others can't be said.
    findings: Vec<Finding>,
}

/// What files are translated to.
fn all_translated(alloc: Global, read: &ReadFiles, to: Option<FileFormat>) -> M<Translations> {
    let mut all = Translations {
        done: Vec::new(alloc),
        findings: Vec::new(alloc),
    };
    for (number, fragment) in read.fragments.iter().enumerate() {
        let Some(source) = read.sources.get(number) else {
            continue;
        };
        let given = Given {
            number,
            fragment,
            all: &read.fragments,
        };
        match translated(alloc, given, to.unwrap_or(source.format.other())) {
            Ok(it) => all.done.push(it)?,
            Err(finding) => all.findings.push(finding?)?,
        }
    }
    Ok(all)
}

/// Adds what is lost of a file: its annotations and its comments.
fn push_lost(note: &mut Text, lost: LeftOut) {
    let LeftOut {
        annotations,
        comments,
        ..
    } = lost;
    if annotations > 0 || comments > 0 {
        write!(
            note,
            "left out: {annotations} annotations, {comments} comments\n"
        );
    }
}

/// What is said of what is lost of a file.
fn lost_note(alloc: Global, source: &Source) -> M<String> {
    let mut note = Text::new(alloc);
    push_lost(&mut note, left_out_of(alloc, source)?);
    note.whole()
}

/// The name of the file that another is translated to: with the ending of the format.
fn target_name(alloc: Global, name: &str, format: FileFormat) -> M<String> {
    let (old, new) = match format {
        FileFormat::Text => (".json", ".cedarschema"),
        FileFormat::Json => (".cedarschema", ".json"),
    };
    let base = name.strip_suffix(old).unwrap_or(name);
    Ok(format!(in alloc; "{base}{new}")?)
}

/// Files that are written beside those that they are translated of.
#[derive(Drop)]
struct Written {
    /// What is said on standard output: a line for each file.
    text: Text,
    /// What is said on standard error.
    notes: Text,
    /// The status of the whole.
    status: Status,
}

/// That a file isn't written, and why.
fn push_unwritten(alloc: Global, written: &mut Written, name: &str, why: &str) -> M<()> {
    let note = unwritten_note(alloc, name, why)?;
    written.notes.push_str(note.as_str());
    written.status = Status::Unwritten;
    Ok(())
}

/// Writes what a file is translated to, unless something stands there.
fn write_beside<F: FileAccess>(
    alloc: Global,
    files: &mut F,
    written: &mut Written,
    source: &Source,
    it: &Translation,
) -> M<()> {
    let name = target_name(alloc, source.name.as_str(), it.format)?;
    if files.is_there(name.as_str()) {
        return push_unwritten(
            alloc,
            written,
            name.as_str(),
            "a file of this name is there",
        );
    }
    match files.replace(alloc, name.as_str(), it.text.as_str()) {
        Ok(()) => {
            push_lost(&mut written.notes, left_out_of(alloc, source)?);
            written.text.push_escaped(name.as_str());
            written.text.push_str(": written\n");
            Ok(())
        }
        Err(FileFault::Memory) => Err(Memory),
        Err(FileFault::Refused(why)) => {
            push_unwritten(alloc, written, name.as_str(), why.as_str())
        }
    }
}

/// Writes each of several files beside the one that it is translated of.
fn write_all<F: FileAccess>(
    alloc: Global,
    files: &mut F,
    sources: &[Source],
    done: &[Translation],
) -> M<Outcome> {
    let mut written = Written {
        text: Text::new(alloc),
        notes: Text::new(alloc),
        status: Status::Done,
    };
    for (source, it) in sources.iter().zip(done) {
        write_beside(alloc, files, &mut written, source, it)?;
    }
    let Written {
        text,
        notes,
        status,
    } = written;
    Ok(Outcome {
        text: text.whole()?,
        notes: notes.whole()?,
        status,
    })
}

/// Writes what the only file is translated to, to a file or to standard output.
fn write_one<F: FileAccess>(
    alloc: Global,
    files: &mut F,
    source: &Source,
    it: Translation,
    output: Option<&str>,
) -> M<Outcome> {
    let notes = lost_note(alloc, source)?;
    let target = Target {
        format: it.format,
        output,
    };
    put(alloc, files, target, it.text, notes)
}

/// Translates files, each beside the others.
pub(crate) fn translate<F: FileAccess>(
    alloc: Global,
    files: &mut F,
    names: &[&str],
    options: ReadOptions,
    to: Option<FileFormat>,
    output: Option<&str>,
) -> M<Outcome> {
    let read = match well_formed(alloc, files, names, options) {
        Ok(read) => read,
        Err(report) => return report,
    };
    let mut all = all_translated(alloc, &read, to)?;
    if !all.findings.is_empty() {
        let report = options.report;
        return at_fault(alloc, report, &read.sources, &all.findings, Status::Refused);
    }
    if read.sources.len() == 1
        && let Some(it) = all.done.pop()
        && let Some(source) = read.sources.first()
    {
        return write_one(alloc, files, source, it, output);
    }
    write_all(alloc, files, &read.sources, &all.done)
}
