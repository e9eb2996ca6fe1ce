//! What a command gives.

ghost use Rattle.std.specs.Prelude.{◌≡◌, ◌≢◌, ◌++◌, IfOk, string_bytes};

use crate::finding::{Finding, Source, push_finding, push_finding_object};
use crate::status::Status;
use crate::text::Text;
use cedar_ast::M;
use std::alloc::Global;
use std::slice;

/// What is printed, and the status that goes with it.
#[derive(Drop)]
pub(crate) struct Outcome {
    /// What is printed on standard output.
    pub(crate) text: String,
    /// What is printed on standard error.
    pub(crate) notes: String,
    /// The status that the program ends with where these could be written.
    pub(crate) status: Status,
}

impl Outcome {
    /// What was asked for, on standard output.
    pub(crate) fn done(alloc: Global, text: String) -> Self
        ensures text { result.text ≡ text }
        ensures status { result.status ≡ Status.Done }
    {
        Outcome {
            text,
            notes: String::new(alloc),
            status: Status::Done,
        }
    }

    /// Why what was asked for isn't had, on standard error.
    pub(crate) fn noted(alloc: Global, notes: String, status: Status) -> Self
        ensures notes { result.notes ≡ notes }
        ensures status { result.status ≡ status }
    {
        Outcome {
            text: String::new(alloc),
            notes,
            status,
        }
    }

    /// What is reported of two things that are at fault, the one behind the other. Where a file of
    /// either couldn't be read, that is the status, and else that of the first.
    pub(crate) fn with(mut self, second: &Outcome) -> M<Outcome>
        ensures text { IfOk result (λ both.
            string_bytes both.text ≡ string_bytes self.text ++ string_bytes second.now.text) }
        ensures notes { IfOk result (λ both.
            string_bytes both.notes ≡ string_bytes self.notes ++ string_bytes second.now.notes) }
        ensures unread { IfOk result (λ both.
            second.now.status ≡ Status.Unread → both.status ≡ Status.Unread) }
        ensures status { IfOk result (λ both.
            second.now.status ≢ Status.Unread → both.status ≡ self.status) }
    {
        self.text.push_str(second.text.as_str())?;
        self.notes.push_str(second.notes.as_str())?;
        if let Status::Unread = second.status {
            self.status = Status::Unread;
        }
        Ok(self)
    }
}

/// How findings are reported.
#[derive(Clone, Copy, Drop)]
pub(crate) enum OutputFormat {
    /// As lines for people.
    Lines,
    /// As objects of JSON, one a line, for editors.
    Json,
}

/// Each finding, reported in a manner.
fn report(
    alloc: Global,
    format: OutputFormat,
    sources: &[Source],
    findings: &[Finding],
) -> M<String> {
    let mut text = Text::new(alloc);
    for finding in findings {
        match format {
            OutputFormat::Lines => push_finding(&mut text, sources, finding),
            OutputFormat::Json => push_finding_object(&mut text, sources, finding),
        }
    }
    text.whole()
}

/// The outcome where something is at fault. Objects of JSON are what was asked for, so they are
/// printed on standard output; lines for people go to standard error.
pub(crate) fn at_fault(
    alloc: Global,
    format: OutputFormat,
    sources: &[Source],
    findings: &[Finding],
    status: Status,
) -> M<Outcome>
    ensures { IfOk result (λ outcome. outcome.status ≡ status) }
{
    let report = report(alloc, format, sources, findings)?;
    Ok(match format {
        OutputFormat::Lines => Outcome::noted(alloc, report, status),
        OutputFormat::Json => Outcome {
            text: report,
            notes: String::new(alloc),
            status,
        },
    })
}

/// The outcome where one thing is at fault.
pub(crate) fn refused(
    alloc: Global,
    format: OutputFormat,
    sources: &[Source],
    finding: Finding,
) -> M<Outcome>
    ensures { IfOk result (λ outcome. outcome.status ≡ Status.Refused) }
{
    let findings = slice::from_ref(&finding);
    at_fault(alloc, format, sources, findings, Status::Refused)
}
