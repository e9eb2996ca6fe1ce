//! What each command gives, by its words.

ghost use Rattle.std.specs.Prelude.{◌≡◌, IfOk};

use crate::answers::{Answer, AnswerKind, counts, environment_lines, incomplete};
use crate::asked_for::{EnvironmentWords, environments_asked};
use crate::attribute_types::{action_answer, entity_answer};
use crate::building::{BuiltFiles, built};
use crate::comparing::{ReportOptions, compare_files};
use crate::file_format::FileFormat;
use crate::files::FileAccess;
use crate::finding::{Finding, Source};
use crate::graph::graph;
use crate::laying_out::{Use, format};
use crate::limits::Walk;
use crate::linking::{Target, is_read, link};
use crate::outcome::{Outcome, OutputFormat, refused};
use crate::reading::{ReadOptions, well_formed};
use crate::repeating::Repeated;
use crate::status::Status;
use crate::text::Text;
use crate::translating::translate;
use crate::words::{Command, FilesCommand, Question};
use cedar_ast::{M, Memory};
use cedar_schema::ValidatorSchema;
use clap::ArgMatches;
use schema_lines::escaped_lines_of;
use std::alloc::Global;
use std::fmt::Display;

/// How findings are asked to be reported.
fn output_format(matches: &ArgMatches<'_>) -> OutputFormat {
    if matches.get_flag("json") {
        OutputFormat::Json
    } else {
        OutputFormat::Lines
    }
}

/// How files are asked to be read.
fn read_options(matches: &ArgMatches<'_>) -> ReadOptions {
    let word = matches.get_str("format").unwrap_or("");
    ReadOptions {
        given: FileFormat::named(word),
        report: output_format(matches),
    }
}

/// A line for each file, that it is well formed.
fn well_formed_lines(alloc: Global, sources: &[Source]) -> M<Outcome> {
    let mut text = Text::new(alloc);
    for source in sources {
        text.push_escaped(source.name.as_str());
        text.push_str(": ok\n");
    }
    Ok(Outcome::done(alloc, text.whole()?))
}

/// Reads each file, and says that each is well formed.
fn check<F: FileAccess>(
    alloc: Global,
    files: &mut F,
    names: &[&str],
    options: ReadOptions,
) -> M<Outcome> {
    match well_formed(alloc, files, names, options) {
        Ok(read) => well_formed_lines(alloc, &read.sources),
        Err(report) => report,
    }
}

/// What is reported of words that don't go together or aren't what they have to be.
fn usage<T: Display + Drop>(alloc: Global, why: T) -> M<Outcome>
    ensures { IfOk result (λ outcome. outcome.status ≡ Status.Usage) }
{
    let mut notes = Text::new(alloc);
    notes.push_str("error: ");
    notes.write_escaped(why);
    notes.push('\n');
    Ok(Outcome::noted(alloc, notes.whole()?, Status::Usage))
}

/// The outcome of a question.
fn answered(alloc: Global, format: OutputFormat, sources: &[Source], answer: Answer) -> M<Outcome> {
    let text = answer.text?;
    match answer.kind {
        AnswerKind::Lines => Ok(Outcome::done(alloc, text)),
        AnswerKind::BadWord => usage(alloc, text),
        AnswerKind::Nothing => {
            refused(
                alloc,
                format,
                sources,
                Finding::general("NotDeclared", text),
            )
        }
    }
}

/// The counts of a schema, or what is external where that is refused.
fn build(
    alloc: Global,
    format: OutputFormat,
    matches: &ArgMatches<'_>,
    it: &BuiltFiles,
) -> M<Outcome> {
    if !matches.get_flag("complete") {
        return counts(alloc, &it.schema);
    }
    match incomplete(alloc, "", &it.schema) {
        Ok(Some(finding)) => refused(alloc, format, &it.sources, finding),
        Ok(None) => counts(alloc, &it.schema),
        Err(Memory) => Err(Memory),
    }
}

/// The type that is asked for.
fn type_answer(alloc: Global, matches: &ArgMatches<'_>, schema: &ValidatorSchema) -> Answer {
    let attributes = matches.get_strs("attribute").unwrap_or(&[]);
    if let Some(name) = matches.get_str("entity") {
        return entity_answer(alloc, schema, name, attributes, matches.get_flag("tags"));
    }
    let action = matches.get_str("action").unwrap_or("");
    action_answer(alloc, schema, action, attributes)
}

/// The environments that are asked for.
fn environments(alloc: Global, matches: &ArgMatches<'_>, schema: &ValidatorSchema) -> Answer {
    let words = EnvironmentWords {
        principal: matches.get_str("principal"),
        action: matches.get_str("action"),
        resource: matches.get_str("resource"),
    };
    match environments_asked(alloc, schema, words) {
        Ok(filter) => Answer::lines(environment_lines(alloc, schema, &filter)),
        Err(why) => why,
    }
}

/// What a command gives over a schema.
fn over_built(
    alloc: Global,
    question: Question,
    matches: &ArgMatches<'_>,
    it: &BuiltFiles,
) -> M<Outcome> {
    let format = output_format(matches);
    let answer = match question {
        Question::Build => return build(alloc, format, matches, it),
        Question::Show => Answer::lines(escaped_lines_of(alloc, &it.schema)),
        Question::Type => type_answer(alloc, matches, &it.schema),
        Question::Envs => environments(alloc, matches, &it.schema),
        Question::Graph => Answer::lines(graph(alloc, &it.schema)),
    };
    answered(alloc, format, &it.sources, answer)
}

/// How a command goes over the types of a schema.
fn walk_of(question: Question) -> Walk {
    match question {
        Question::Build | Question::Envs | Question::Graph => Walk::Shared,
        Question::Show | Question::Type => Walk::WrittenOut,
    }
}

/// What a command gives over the schema that files declare.
fn over_schema<F: FileAccess>(
    alloc: Global,
    files: &mut F,
    question: Question,
    matches: &ArgMatches<'_>,
    names: &[&str],
) -> M<Outcome> {
    match built(
        alloc,
        files,
        names,
        read_options(matches),
        walk_of(question),
    ) {
        Ok(it) => over_built(alloc, question, matches, &it),
        Err(report) => report,
    }
}

/// What is reported of a file that would be read and written.
fn overwrites(alloc: Global, output: &str) -> M<Outcome>
    ensures { IfOk result (λ outcome. outcome.status ≡ Status.Usage) }
{
    let name = Repeated(output);
    usage(
        alloc,
        format_args!("{name}: the file to be written is one of those read"),
    )
}

/// The name of the file that is to be written; None is standard output.
fn output<'a>(matches: &ArgMatches<'a>) -> Option<&'a str> {
    match matches.get_str("output") {
        Some(name) if name != "-" => Some(name),
        _ => None,
    }
}

/// The format that is to be written, where it is given.
fn format_to(matches: &ArgMatches<'_>) -> Option<FileFormat> {
    FileFormat::named(matches.get_str("to").unwrap_or(""))
}

/// What the command that links gives.
fn linked<F: FileAccess>(
    alloc: Global,
    files: &mut F,
    matches: &ArgMatches<'_>,
    names: &[&str],
) -> M<Outcome> {
    let target = Target {
        format: format_to(matches).unwrap_or(FileFormat::Json),
        output: output(matches),
    };
    match target.output {
        Some(name) if is_read(files, name, names) => overwrites(alloc, name),
        _ => link(alloc, files, names, read_options(matches), target),
    }
}

/// What the command that translates gives.
fn translated<F: FileAccess>(
    alloc: Global,
    files: &mut F,
    matches: &ArgMatches<'_>,
    names: &[&str],
) -> M<Outcome> {
    let output = output(matches);
    if names.len() > 1 && (output.is_some() || input_count(names) > 0) {
        return usage(
            alloc,
            "several files are written beside those read: give no `-o` and no `-`",
        );
    }
    match output {
        Some(name) if is_read(files, name, names) => overwrites(alloc, name),
        _ => translate(
            alloc,
            files,
            names,
            read_options(matches),
            format_to(matches),
            output,
        ),
    }
}

/// How often standard input is named.
fn input_count(names: &[&str]) -> usize {
    let mut count: usize = 0;
    for name in names {
        if *name == "-" {
            count = count.saturating_add(1);
        }
    }
    count
}

/// That standard input is named more than once.
fn reads_input_twice(alloc: Global) -> M<Outcome>
    ensures { IfOk result (λ outcome. outcome.status ≡ Status.Usage) }
{
    usage(alloc, "standard input (`-`) can be read only once")
}

/// What the command that compares gives.
fn compared<F: FileAccess>(alloc: Global, files: &mut F, matches: &ArgMatches<'_>) -> M<Outcome> {
    let old = matches.get_strs("old").unwrap_or(&[]);
    let new = matches.get_strs("new").unwrap_or(&[]);
    if input_count(old).saturating_add(input_count(new)) > 1 {
        return reads_input_twice(alloc);
    }
    let options = ReportOptions {
        read: read_options(matches),
        is_all: matches.get_flag("all"),
    };
    compare_files(alloc, files, old, new, options)
}

/// What becomes of layouts, by the words.
fn use_of(matches: &ArgMatches<'_>) -> Use {
    if matches.get_flag("check") {
        Use::Test
    } else if matches.get_flag("write") {
        Use::Write
    } else {
        Use::Print
    }
}

/// What the command that lays out gives.
fn laid_out<F: FileAccess>(
    alloc: Global,
    files: &mut F,
    matches: &ArgMatches<'_>,
    names: &[&str],
) -> M<Outcome> {
    let how = use_of(matches);
    match how {
        Use::Print if names.len() > 1 => usage(
            alloc,
            "several files are laid out by `--write`, or tested by `--check`",
        ),
        Use::Write if input_count(names) > 0 => {
            usage(alloc, "standard input (`-`) can't be written over")
        }
        _ => format(alloc, files, names, read_options(matches), how),
    }
}

/// What a command gives over files that are given together.
fn over_files<F: FileAccess>(
    alloc: Global,
    files: &mut F,
    command: FilesCommand,
    matches: &ArgMatches<'_>,
) -> M<Outcome> {
    let names = matches.get_strs("FILE").unwrap_or(&[]);
    if input_count(names) > 1 {
        return reads_input_twice(alloc);
    }
    match command {
        FilesCommand::Check => check(alloc, files, names, read_options(matches)),
        FilesCommand::Link => linked(alloc, files, matches, names),
        FilesCommand::Translate => translated(alloc, files, matches, names),
        FilesCommand::Format => laid_out(alloc, files, matches, names),
        FilesCommand::Ask(question) => over_schema(alloc, files, question, matches, names),
    }
}

/// What a command gives.
pub(crate) fn outcome_of<F: FileAccess>(
    alloc: Global,
    files: &mut F,
    command: Command,
    matches: &ArgMatches<'_>,
) -> M<Outcome> {
    match command {
        Command::Compare => compared(alloc, files, matches),
        Command::Files(command) => over_files(alloc, files, command, matches),
    }
}
