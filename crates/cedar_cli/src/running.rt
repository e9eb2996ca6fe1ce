//! What the program does with its words, over any files and any two writers.

ghost use Rattle.std.specs.Prelude.{◌≡◌, ◌<◌, ◌⊎◌, IfOk, OnErr};

use crate::commands::outcome_of;
use crate::files::FileAccess;
use crate::outcome::Outcome;
use crate::repeating::Repeated;
use crate::status::Status;
use crate::words::{Command, program};
use cedar_ast::{M, Memory};
use clap::ArgMatches;
use clap::error::{Error, ErrorKind};
use schema_lines::{escaped, is_hidden};
use std::alloc::Global;
use std::io;
use std::io::Write;

/// What the program's words give, unless they ask for help or the version, or give no command.
fn matches_of<'a>(alloc: Global, words: &'a [String]) -> Result<ArgMatches<'a>, Error> {
    program(alloc)?.try_get_matches_from(words)
}

/// What the command gives that the words ask for.
fn run_command<F: FileAccess>(
    alloc: Global,
    files: &mut F,
    matches: &ArgMatches<'_>,
) -> M<Outcome> {
    if let Some((name, matches)) = matches.subcommand() {
        if let Some(command) = Command::named(name) {
            return outcome_of(alloc, files, command, matches);
        }
    }
    Ok(Outcome::done(alloc, String::new(alloc)))
}

/// Whether a message may repeat a word as it is.
fn is_repeated(word: &str) -> bool {
    Repeated(word).is_whole() && word.chars().all(|character| !is_hidden(character))
}

/// A word as messages repeat it.
fn repeated_word(alloc: Global, word: &str) -> M<String> {
    escaped(alloc, format!(in alloc; "{}", Repeated(word))?.as_str())
}

/// The words as messages repeat them. The first is the program's own name, of which they repeat
/// the end.
fn repeated_words(alloc: Global, words: &[String]) -> M<Vec<String>> {
    let mut repeated = Vec::new(alloc);
    let Some((program, others)) = words.split_first() else {
        return Ok(repeated);
    };
    repeated.push(escaped(alloc, program.as_str())?)?;
    for word in others {
        repeated.push(repeated_word(alloc, word.as_str())?)?;
    }
    Ok(repeated)
}

/// What is said of words that give no command.
fn error_text(alloc: Global, error: &Error) -> M<String> {
    if error.kind() == ErrorKind::OutOfMemory {
        return Err(Memory);
    }
    Ok(format!(in alloc; "{error}")?)
}

/// The same of words as messages repeat them, which give none either.
fn repeated_error_text(alloc: Global, words: &[String]) -> M<String> {
    match matches_of(alloc, words) {
        Ok(_) => Ok(String::from_str(alloc, "error: the words give no command\n")?),
        Err(error) => error_text(alloc, &error),
    }
}

/// What is said of words that give no command, with each of them as messages repeat it.
fn report_error(alloc: Global, words: &[String], error: &Error) -> M<String> {
    if words.iter().all(|word| is_repeated(word.as_str())) {
        return error_text(alloc, error);
    }
    let words = repeated_words(alloc, words)?;
    repeated_error_text(alloc, &words)
}

/// The outcome where the words give no command: help or the version, or why they give none.
fn no_command(alloc: Global, words: &[String], error: &Error) -> M<Outcome>
    ensures { IfOk result (λ outcome. (outcome.status ≡ Status.Usage)
        ⊎ (outcome.status ≡ Status.Done)) }
{
    let text = report_error(alloc, words, error)?;
    Ok(if error.use_stderr() {
        Outcome::noted(alloc, text, Status::Usage)
    } else {
        Outcome::done(alloc, text)
    })
}

/// Says on `err` why `out` couldn't be written, unless nobody reads it any more.
fn say_unwritten<E: Write>(error: &io::Error, err: &mut E) {
    if error.kind() != io::ErrorKind::BrokenPipe {
        let _ = writeln!(err, "standard output: Unwritten: {error}");
    }
}

/// Writes what a command gave, and answers how the run ends: with the command's own status, or
/// since memory ran out, or since `out` couldn't be written. A failed write to `err` is ignored.
fn finish<O: Write, E: Write>(outcome: M<Outcome>, out: &mut O, err: &mut E) -> Status
    ensures given { IfOk outcome (λ given.
        (result ≡ given.status) ⊎ (result ≡ Status.Unwritten)) }
    ensures refused { OnErr outcome (result ≡ Status.Memory) }
{
    match outcome {
        Ok(outcome) => {
            let _ = err.write_all(outcome.notes.as_bytes());
            match out.write_all(outcome.text.as_bytes()) {
                Ok(()) => outcome.status,
                Err(error) => {
                    say_unwritten(&error, err);
                    Status::Unwritten
                }
            }
        }
        Err(Memory) => {
            let _ = err.write_all(b"memory\n");
            Status::Memory
        }
    }
}

/// Does what the words say, the first of which is the program's own name, and answers the status.
///
/// - 0: what was asked for is printed on `out`, or in the file that was to be written.
/// - 1: a file or the schema is refused, or the schema has nothing of what was asked for; `err`
///   says what is at fault, or `out` where objects of JSON are asked for.
/// - 2: the words give no command; `err` says why.
/// - 3: memory ran out; `err` has the line `memory`, and nothing was printed on `out`.
/// - 4: `out` or the file that was to be written couldn't be written; `err` says why, unless
///   nobody reads `out` any more.
/// - 5: a file couldn't be read; it is reported as those that are refused.
/// - 6: two versions of a schema were compared, and the new one takes something away; what that is
///   is printed on `out`, with what it adds.
///
/// A failed write to `err` is ignored.
pub fn run<F: FileAccess, O: Write, E: Write>(
    alloc: Global,
    words: &[String],
    files: &mut F,
    out: &mut O,
    err: &mut E,
) -> u8
    ensures { result < 7 }
{
    let outcome = match matches_of(alloc, words) {
        Ok(matches) => run_command(alloc, files, &matches),
        Err(error) => no_command(alloc, words, &error),
    };
    finish(outcome, out, err).code()
}

/// Answers the status where the words couldn't be read: 3 where memory ran out, and 2 for a word
/// that is no text. A failed write to `err` is ignored.
pub fn unread<E: Write>(error: &io::Error, err: &mut E) -> u8
    ensures { (result ≡ 2) ⊎ (result ≡ 3) }
{
    if error.kind() == io::ErrorKind::OutOfMemory {
        let _ = err.write_all(b"memory\n");
        return 3;
    }
    let _ = err.write_all(b"error: the words aren't UTF-8\n");
    2
}
