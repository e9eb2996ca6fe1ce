//! What the program does, over any two writers.

ghost use Rattle.std.specs.Prelude.{◌≡◌, ◌⊎◌};

use crate::by_hand::validated;
use crate::commands::answer;
use crate::copied::{copied_fragment, copied_qualified};
use crate::left::{Kind, closed, edges_added, names_marked};
use crate::scenario::{SCENARIOS, Scenario, scenario_of};
use crate::stop::Stop;
use crate::typed::{core_type, reduced};
use std::alloc::Global;
use std::io;
use std::io::Write;

/// How to call the program.
const USAGE: &str = "usage: hostile | hostile WORD\n";

/// The whole answer of a scenario.
fn done(alloc: Global, scenario: Scenario) -> Result<String, Stop> {
    match scenario {
        Scenario::CopyFragment => copied_fragment(alloc),
        Scenario::CopyQualified => copied_qualified(alloc),
        Scenario::Validate => validated(alloc),
        Scenario::Ask(question) => answer(alloc, question),
        Scenario::Reduce => reduced(alloc),
        Scenario::CoreType => core_type(alloc),
        Scenario::Close => closed(alloc),
        Scenario::AddEdge => edges_added(alloc),
        Scenario::MarkEntityTypes => names_marked(alloc, Kind::Entity),
        Scenario::MarkCommonTypes => names_marked(alloc, Kind::Common),
    }
}

/// The answers of all scenarios, each under a line with its word.
fn all(alloc: Global) -> Result<String, Stop> {
    let mut text = String::new(alloc);
    for &(word, scenario) in SCENARIOS {
        let answer = done(alloc, scenario)?;
        text.push_str(format!(in alloc; "== {word}\n{answer}")?.as_str())?;
    }
    Ok(text)
}

/// Writes an answer once the whole of it stands, and answers the status. Without one `err` gets a
/// line, and a failed write to it is ignored.
fn finish<O: Write, E: Write>(answer: Result<String, Stop>, out: &mut O, err: &mut E) -> u8 {
    let (line, status) = match answer {
        Ok(text) => match out.write_all(text.as_bytes()) {
            Ok(()) => return 0,
            Err(_) => ("unwritten\n", 4),
        },
        Err(Stop::Changed) => ("changed\n", 1),
        Err(Stop::Memory) => ("memory\n", 3),
    };
    let _ = err.write_all(line.as_bytes());
    status
}

/// Answers status 2, for words that ask for nothing.
fn usage<E: Write>(err: &mut E) -> u8
    ensures { result ≡ 2 }
{
    let _ = err.write_all(USAGE.as_bytes());
    2
}

/// Does what the words say, and answers the status.
///
/// - 0: the whole answer is printed on `out`.
/// - 1: what stood after a call wasn't what it has to be; `err` has the line `changed`.
/// - 2: the words ask for nothing; `err` has the line on usage.
/// - 3: memory ran out; `err` has the line `memory`, and nothing was printed on `out`.
/// - 4: `out` couldn't be written; `err` has the line `unwritten`.
///
/// A failed write to `err` is ignored.
pub(crate) fn run<O: Write, E: Write>(
    alloc: Global,
    words: &[String],
    out: &mut O,
    err: &mut E,
) -> u8 {
    match words {
        [] => finish(all(alloc), out, err),
        [word] => match scenario_of(word.as_str()) {
            Some(scenario) => finish(done(alloc, scenario), out, err),
            None => usage(err),
        },
        _ => usage(err),
    }
}

/// Answers the status where the words couldn't be read: 3 where memory ran out, and 2 for a word
/// that is no text. A failed write to `err` is ignored.
pub(crate) fn unread<E: Write>(error: &io::Error, err: &mut E) -> u8
    ensures { (result ≡ 2) ⊎ (result ≡ 3) }
{
    if error.kind() == io::ErrorKind::OutOfMemory {
        let _ = err.write_all(b"memory\n");
        return 3;
    }
    usage(err)
}
