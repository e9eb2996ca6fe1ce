//! Two versions of a schema, compared: what the new one takes away and what it adds.

ghost use Rattle.std.specs.Prelude.{◌≡◌, ◌↔◌, ◌⊎◌, [], IfOk};
ghost use Rattle.cedar_compare.specs.Keeps.{Keeps};
ghost use Rattle.cedar_schema.specs.ValidatorSchema.{schema_of};

use crate::answers::incomplete;
use crate::building::{BuiltFiles, built};
use crate::difference_json::push_objects;
use crate::difference_lines::push_lines;
use crate::files::FileAccess;
use crate::finding::Finding;
use crate::limits::Walk;
use crate::outcome::{Outcome, OutputFormat, refused};
use crate::reading::ReadOptions;
use crate::sides::Sides;
use crate::status::Status;
use crate::text::Text;
use cedar_ast::{Extensions, M, Memory, Name, NameFault, RestrictedExpr, Value};
use cedar_compare::{CompareFault, Comparison, Difference, compare};
use cedar_json::cedar_extensions;
use cedar_schema::ValidatorSchema;
use std::alloc::Global;

/// A function of each of Cedar's extension types that gives a value of it, and what it is given.
const CALLS: &[(&str, &str)] = &[
    ("ip", "10.0.0.1"),
    ("decimal", "1.0"),
    ("datetime", "2024-01-01"),
    ("duration", "1h"),
];

/// What is said of an old version that leaves something external, before what that is.
const OLD_INCOMPLETE: &str = "the old version isn't compared: ";

/// The same of a new one.
const NEW_INCOMPLETE: &str = "the new version isn't compared: ";

/// The arguments of a function that is given a text.
fn args_of(alloc: Global, text: &str) -> M<Vec<RestrictedExpr>> {
    let text = String::from_str(alloc, text)?;
    let mut args = Vec::new(alloc);
    args.push(RestrictedExpr::String(text))?;
    Ok(args)
}

/// Adds the value that a function gives.
fn push_call(samples: &mut Vec<Value>, function: Name, args: Vec<RestrictedExpr>) -> M<()> {
    let call = RestrictedExpr::ExtensionCall { function, args };
    samples.push(Value::new(call)).or(Err(Memory))
}

/// Adds the value that a function gives of a text, if the word is the name of one.
fn push_sample(alloc: Global, samples: &mut Vec<Value>, name: &str, text: &str) -> M<()> {
    let args = args_of(alloc, text)?;
    match Name::from_str(alloc, name) {
        Ok(function) => push_call(samples, function, args),
        Err(NameFault::Memory(refused)) => Err(refused),
        Err(_) => Ok(()),
    }
}

/// A value of each of Cedar's extension types.
fn samples(alloc: Global) -> M<Vec<Value>> {
    let mut samples = Vec::new(alloc);
    for (name, text) in CALLS {
        push_sample(alloc, &mut samples, name, text)?;
    }
    Ok(samples)
}

/// How the differences between two versions of a schema are reported.
#[derive(Clone, Copy, Drop)]
pub(crate) struct ReportOptions {
    /// How the files are read, and whether as lines or as JSON.
    pub(crate) read: ReadOptions,
    /// Whether all requests of each action are shown.
    pub(crate) is_all: bool,
}

impl ReportOptions {
    /// Adds some differences.
    fn push(self, text: &mut Text, sides: &Sides<'_>, differences: &[Difference]) {
        match self.read.report {
            OutputFormat::Lines => push_lines(text, sides, differences, self.is_all),
            OutputFormat::Json => push_objects(text, sides, differences),
        }
    }
}

/// What is reported of a comparison.
fn compared(
    alloc: Global,
    options: ReportOptions,
    old: &ValidatorSchema,
    new: &ValidatorSchema,
    comparison: &Comparison,
) -> M<Outcome>
    ensures done { IfOk result (λ outcome.
        (outcome.status ≡ Status.Done) ↔ (comparison.now.lost.items ≡ [])) }
    ensures report { IfOk result (λ outcome.
        (outcome.status ≡ Status.Done) ⊎ (outcome.status ≡ Status.Lost)) }
{
    let mut text = Text::new(alloc);
    options.push(&mut text, &Sides::of_lost(old, new), &comparison.lost);
    options.push(&mut text, &Sides::of_gained(old, new), &comparison.gained);
    let status = if comparison.lost.is_empty() {
        Status::Done
    } else {
        Status::Lost
    };
    Ok(Outcome {
        text: text.whole()?,
        notes: String::new(alloc),
        status,
    })
}

/// What is reported of schemas that aren't compared.
fn not_compared(alloc: Global, format: OutputFormat, fault: &CompareFault) -> M<Outcome>
    ensures { IfOk result (λ outcome. outcome.status ≡ Status.Refused) }
{
    let kind = match fault {
        CompareFault::Incomplete(_) => "Incomplete",
        CompareFault::Unsampled(_, _) => "Unsampled",
        CompareFault::Memory(_) => return Err(Memory),
    };
    let message = format!(in alloc; "{fault}")?;
    refused(alloc, format, &[], Finding::general(kind, message))
}

/// Compares two schemas over some extensions, with a value of each of their types.
fn compare_with(
    alloc: Global,
    options: ReportOptions,
    old: &ValidatorSchema,
    new: &ValidatorSchema,
    extensions: &Extensions,
    samples: &[Value],
) -> M<Outcome>
    ensures kept { IfOk result (λ outcome. outcome.status ≡ Status.Done
        → Keeps extensions.now (schema_of old.now) (schema_of new.now)) }
    ensures lost { IfOk result (λ outcome. outcome.status ≡ Status.Lost
        → ¬ Keeps extensions.now (schema_of old.now) (schema_of new.now)) }
    ensures report { IfOk result (λ outcome. (outcome.status ≡ Status.Done)
        ⊎ ((outcome.status ≡ Status.Lost) ⊎ (outcome.status ≡ Status.Refused))) }
{
    match compare(alloc, old, new, extensions, samples) {
        Ok(comparison) => compared(alloc, options, old, new, &comparison),
        Err(fault) => not_compared(alloc, options.read.report, &fault),
    }
}

/// Compares two schemas, over the extensions of Cedar.
fn compare_schemas(
    alloc: Global,
    options: ReportOptions,
    old: &ValidatorSchema,
    new: &ValidatorSchema,
) -> M<Outcome> {
    let extensions = cedar_extensions(alloc)?;
    let samples = samples(alloc)?;
    compare_with(alloc, options, old, new, &extensions, &samples)
}

/// What is reported where the old files are at fault: that, and behind it what is at fault in the
/// new ones.
fn with_new_faults<F: FileAccess>(
    alloc: Global,
    files: &mut F,
    report: Outcome,
    new: &[&str],
    read: ReadOptions,
) -> M<Outcome> {
    match built(alloc, files, new, read, Walk::WrittenOut) {
        Ok(_) => Ok(report),
        Err(Ok(other)) => report.with(&other),
        Err(Err(refused)) => Err(refused),
    }
}

/// What is reported of a version that leaves something external, if it does, with what the message
/// is to begin with.
fn report_external(
    alloc: Global,
    format: OutputFormat,
    beginning: &str,
    it: &BuiltFiles,
) -> M<Option<Outcome>> {
    match incomplete(alloc, beginning, &it.schema)? {
        Some(finding) => Ok(Some(refused(alloc, format, &it.sources, finding)?)),
        None => Ok(None),
    }
}

/// What is reported where an old version leaves something external: that, and behind it what the
/// new one does.
fn with_new_external(
    alloc: Global,
    format: OutputFormat,
    report: Outcome,
    new: &BuiltFiles,
) -> M<Outcome> {
    match report_external(alloc, format, NEW_INCOMPLETE, new)? {
        Some(other) => report.with(&other),
        None => Ok(report),
    }
}

/// Compares the schema of an old version, which leaves nothing external, with that of a new one.
fn compare_with_new(
    alloc: Global,
    options: ReportOptions,
    old: &ValidatorSchema,
    new: &BuiltFiles,
) -> M<Outcome> {
    match report_external(alloc, options.read.report, NEW_INCOMPLETE, new)? {
        Some(report) => Ok(report),
        None => compare_schemas(alloc, options, old, &new.schema),
    }
}

/// Compares the schemas of two versions, unless one leaves something external.
fn compare_versions(
    alloc: Global,
    options: ReportOptions,
    old: &BuiltFiles,
    new: &BuiltFiles,
) -> M<Outcome> {
    match report_external(alloc, options.read.report, OLD_INCOMPLETE, old)? {
        Some(report) => with_new_external(alloc, options.read.report, report, new),
        None => compare_with_new(alloc, options, &old.schema, new),
    }
}

/// Compares the schema of old files with the one that new files declare.
fn compare_built<F: FileAccess>(
    alloc: Global,
    files: &mut F,
    old: &BuiltFiles,
    new: &[&str],
    options: ReportOptions,
) -> M<Outcome> {
    match built(alloc, files, new, options.read, Walk::WrittenOut) {
        Ok(new) => compare_versions(alloc, options, old, &new),
        Err(report) => report,
    }
}

/// Compares the schema that old files declare with the one that new files declare. Where files of
/// both are at fault, each of these is reported.
pub(crate) fn compare_files<F: FileAccess>(
    alloc: Global,
    files: &mut F,
    old: &[&str],
    new: &[&str],
    options: ReportOptions,
) -> M<Outcome> {
    match built(alloc, files, old, options.read, Walk::WrittenOut) {
        Ok(old) => compare_built(alloc, files, &old, new, options),
        Err(Ok(report)) => with_new_faults(alloc, files, report, new, options.read),
        Err(Err(refused)) => Err(refused),
    }
}
