//! What the words of the program ask for.

ghost use Rattle.std.specs.Prelude.{◌≡◌, ◌↔◌, codes, IsSome, map, string_bytes};
ghost use Rattle.bench.specs.Words.{IsCommand, IsPieceName};

use crate::piece::{Row, row_named};

/// What the program is asked to do.
#[derive(Clone, Copy)]
pub(crate) enum Command<'a> {
    /// To do each piece once, at its smallest size.
    Once,
    /// To time all pieces.
    TimeAll,
    /// To time one piece.
    Time(&'static Row),
    /// To time all pieces beside the figures of a file of this name.
    CompareAll(&'a str),
    /// To time one piece beside the figures of a file of this name.
    Compare(&'a str, &'static Row),
}

/// The command of one word.
fn time_all_command<'a>(word: &str) -> Option<Command<'a>>
    ensures { IsSome result ↔ (word.now ≡ codes "time") }
{
    match word {
        "time" => Some(Command::TimeAll),
        _ => None,
    }
}

/// The command of a word and the name of a piece.
fn time_command<'a>(word: &str, piece: &str) -> Option<Command<'a>>
    ensures { IsSome result ↔ ((word.now ≡ codes "time") × IsPieceName piece.now) }
{
    match word {
        "time" => Some(Command::Time(row_named(piece)?)),
        _ => None,
    }
}

/// The file of earlier figures that a word and a name stand for, if they do.
fn earlier<'a>(word: &str, file: &'a str) -> Option<&'a str>
    ensures { IsSome result ↔ (word.now ≡ codes "beside") }
{
    match word {
        "beside" => Some(file),
        _ => None,
    }
}

/// The command of a word, another one, and the name of a file.
fn compare_all_command<'a>(word: &str, beside: &str, file: &'a str) -> Option<Command<'a>>
    ensures { IsSome result ↔ ((word.now ≡ codes "time") × (beside.now ≡ codes "beside")) }
{
    match word {
        "time" => Some(Command::CompareAll(earlier(beside, file)?)),
        _ => None,
    }
}

/// The command of a word, the name of a piece, another word, and the name of a file.
fn compare_command<'a>(word: &str, piece: &str, beside: &str, file: &'a str) -> Option<Command<'a>>
    ensures { IsSome result ↔ ((word.now ≡ codes "time") × IsPieceName piece.now
        × (beside.now ≡ codes "beside")) }
{
    match word {
        "time" => Some(Command::Compare(earlier(beside, file)?, row_named(piece)?)),
        _ => None,
    }
}

/// The command that some words give, compared exactly, or None where they give none.
pub(crate) fn command_of(words: &[String]) -> Option<Command<'_>>
    ensures { IsSome result ↔ IsCommand (map string_bytes words.now) }
{
    match words {
        [] => Some(Command::Once),
        [time] => time_all_command(time.as_str()),
        [time, piece] => time_command(time.as_str(), piece.as_str()),
        [time, beside, file] => {
            compare_all_command(time.as_str(), beside.as_str(), file.as_str())
        }
        [time, piece, beside, file] => {
            compare_command(
                time.as_str(),
                piece.as_str(),
                beside.as_str(),
                file.as_str(),
            )
        }
        _ => None,
    }
}
