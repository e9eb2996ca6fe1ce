//! What the program does, over any two writers.

ghost use Rattle.std.specs.Prelude.{◌≡◌, ◌<◌, ◌↔◌, ◌⊎◌, IfOk, OnErr, map, string_bytes};
ghost use Rattle.schema_lines.specs.Words.{IsCommand};

use crate::cases::{Unread, fragments_of, sample_extensions};
use crate::command::{Case, Command, command_of};
use crate::joined::{is_separated, joined};
use crate::lines::lines_of;
use cedar_schema::below::{M, Memory};
use cedar_schema::json_schema::{Fragment, RawName};
use cedar_schema::{JoinError, SchemaError, Type, ValidatorSchema};
use std::alloc::Global;
use std::io;
use std::io::Write;

/// How to call the program.
const USAGE: &str = "usage: schema_show list | show CASE | join MODE A B | separate A B\n";

/// The names of the built-in cases, one a line.
const LIST: &str = "alias\nboth\ncycle\nempty\nlinked\nphotos\nring\nshadow\nshapes\nsplit\ntint\n";

/// What is printed, and the status that goes with it.
#[derive(Drop)]
struct Outcome {
    /// What is printed on the first writer.
    text: String,
    /// The status that the program ends with where that could be written.
    status: u8,
}

/// The schema that fragments declare, over the sample extension.
fn schema_of(
    alloc: Global,
    fragments: Vec<Fragment<RawName>>,
) -> Result<ValidatorSchema, SchemaError> {
    let extensions = sample_extensions(alloc)?;
    ValidatorSchema::from_raw_fragments(alloc, fragments, &extensions)
}

/// The lines of a schema, or the line that says how it was refused.
fn lines_or_refusal(alloc: Global, built: Result<ValidatorSchema, SchemaError>) -> M<Outcome>
    ensures { IfOk result (λ outcome. outcome.status < 2) }
{
    match built {
        Ok(schema) => Ok(Outcome {
            text: lines_of(alloc, &schema)?,
            status: 0,
        }),
        Err(SchemaError::Memory(refused)) => Err(refused),
        Err(refused) => {
            let kind = refused.kind();
            Ok(Outcome {
                text: format!(in alloc; "refused: {kind}\n")?,
                status: 1,
            })
        }
    }
}

/// The lines of a case, or the line that says how it was refused.
fn shown(alloc: Global, case: Case) -> M<Outcome>
    ensures { IfOk result (λ outcome. outcome.status < 2) }
{
    match fragments_of(alloc, case) {
        Ok(fragments) => lines_or_refusal(alloc, schema_of(alloc, fragments)),
        Err(Unread::Memory) => Err(Memory),
        Err(Unread::Text) => Ok(Outcome {
            text: String::from_str(alloc, "refused: Unread\n")?,
            status: 1,
        }),
    }
}

/// The line of a join, or the line that says how it was refused.
fn join_or_refusal(alloc: Global, joined: Result<Type, JoinError>) -> M<Outcome>
    ensures { IfOk result (λ outcome. outcome.status < 2) }
{
    match joined {
        Ok(ty) => Ok(Outcome {
            text: format!(in alloc; "{ty}\n")?,
            status: 0,
        }),
        Err(JoinError::Memory) => Err(Memory),
        Err(JoinError::Help(help)) => Ok(Outcome {
            text: format!(in alloc; "refused: {help}\n")?,
            status: 1,
        }),
    }
}

/// What a command prints.
fn outcome_of(alloc: Global, command: Command) -> M<Outcome>
    ensures { IfOk result (λ outcome. outcome.status < 2) }
{
    match command {
        Command::List => Ok(Outcome {
            text: String::from_str(alloc, LIST)?,
            status: 0,
        }),
        Command::Show(case) => shown(alloc, case),
        Command::Join(mode, first, second) => {
            join_or_refusal(alloc, joined(alloc, mode, first, second))
        }
        Command::Separate(first, second) => {
            let line = if is_separated(alloc, first, second)? {
                "separated\n"
            } else {
                "none\n"
            };
            Ok(Outcome {
                text: String::from_str(alloc, line)?,
                status: 0,
            })
        }
    }
}

/// Writes what a command gave, and answers the status: its own, 3 where memory ran out, or 4 where
/// `out` couldn't be written. A failed write to `err` is ignored.
fn finish<O: Write, E: Write>(outcome: M<Outcome>, out: &mut O, err: &mut E) -> u8
    ensures given { IfOk outcome (λ given. (result ≡ given.status) ⊎ (result ≡ 4)) }
    ensures refused { OnErr outcome (result ≡ 3) }
{
    match outcome {
        Ok(outcome) => match out.write_all(outcome.text.as_bytes()) {
            Ok(()) => outcome.status,
            Err(_) => 4,
        },
        Err(Memory) => {
            let _ = err.write_all(b"memory\n");
            3
        }
    }
}

/// Does what the words say, and answers the status.
///
/// - 0: what was asked for is printed on `out`.
/// - 1: the schema, the join or a text of the case was refused; `out` has the line `refused: KIND`.
/// - 2: the words give no command; `err` has the line on usage.
/// - 3: memory ran out; `err` has the line `memory`, and nothing was printed on `out`.
/// - 4: `out` couldn't be written.
///
/// A failed write to `err` is ignored.
pub fn run<O: Write, E: Write>(alloc: Global, words: &[String], out: &mut O, err: &mut E) -> u8
    ensures usage { (result ≡ 2) ↔ (¬ IsCommand (map string_bytes words.now)) }
{
    let Some(command) = command_of(words) else {
        let _ = err.write_all(USAGE.as_bytes());
        return 2;
    };
    finish(outcome_of(alloc, command), out, err)
}

/// Answers the status where the words couldn't be read: 3 where memory ran out, and 2 for a word
/// that is no text. A failed write to `err` is ignored.
pub fn unread<E: Write>(error: &io::Error, err: &mut E) -> u8
    ensures { (result ≡ 2) ⊎ (result ≡ 3) }
{
    if error.kind() == io::ErrorKind::OutOfMemory {
        let _ = err.write_all(b"memory\n");
        return 3;
    }
    let _ = err.write_all(USAGE.as_bytes());
    2
}
