//! What the program does, over any clock, any files and any two writers.

ghost use Rattle.std.specs.Prelude.{◌≡◌, ◌↔◌, ◌⊎◌, map, string_bytes};
ghost use Rattle.bench.specs.Words.{IsCommand};

use crate::command::{Command, command_of};
use crate::measured::{Least, lesser, table, tenths_of};
use crate::memory::{forget_peak, peak};
use crate::piece::{Piece, Row, rows};
use crate::prepared::{Borrowed, Given, Prepared, prepare};
use crate::stop::Stop;
use std::alloc::{AllocGlobal, Global};
use std::hint::black_box;
use std::io::Write;
use std::rt::{Clock, Files};
use std::time::Instant;
use std::{fs, io};

/// How to call the program.
const USAGE: &str = "usage: bench | bench time [PIECE] [beside FILE]\n";

/// How many runs a piece gets at each size.
const RUNS: u32 = 3;

/// The nanoseconds of a second, beyond which a run is told of on the way.
const SECOND: u128 = 1_000_000_000;

/// How large a piece of work is, and how often a run does it.
#[derive(Clone, Copy)]
struct Sized {
    /// Of how many attributes, entity types or declarations.
    size: usize,
    /// How often a run does it.
    operations: u32,
}

/// Does a piece once at a size, and answers the line of what it computed.
fn computed(alloc: Global, name: &str, piece: Piece, size: usize) -> Result<String, Stop> {
    let computed = match prepare(alloc, piece, size)? {
        Prepared::Borrowed(borrowed) => borrowed.work(alloc)?,
        Prepared::Given(given) => given.work(alloc)?,
    };
    Ok(format!(in alloc; "{name}|{size}|{computed}\n")?)
}

/// Does each piece once, and writes what they computed.
fn once<O: Write>(alloc: Global, out: &mut O) -> Result<(), Stop> {
    let mut text = String::new(alloc);
    for (name, piece, sizes) in rows() {
        if let Some(&(size, _)) = sizes.first() {
            text.push_str(&computed(alloc, name, *piece, size)?)?;
        }
    }
    out.write_all(text.as_bytes())?;
    Ok(())
}

/// The nanoseconds of doing work on what is borrowed, some times over.
fn time_of_borrowed<C: Clock>(
    clock: &C,
    alloc: Global,
    borrowed: &Borrowed,
    operations: u32,
) -> Result<u128, Stop> {
    let start = Instant::now(clock)?;
    for _ in 0..operations {
        black_box(borrowed.work(alloc)?);
    }
    Ok(start.elapsed(clock)?.as_nanos())
}

/// The nanoseconds of doing work on what is given.
fn time_of_given<C: Clock>(clock: &C, alloc: Global, given: Given) -> Result<u128, Stop> {
    let start = Instant::now(clock)?;
    black_box(given.work(alloc)?);
    Ok(start.elapsed(clock)?.as_nanos())
}

/// The nanoseconds of one run of a piece. What is used up is made ready anew for each operation,
/// which isn't counted.
fn time_of_run<C: Clock>(
    clock: &C,
    alloc: Global,
    piece: Piece,
    sized: Sized,
) -> Result<u128, Stop> {
    let mut spent = 0u128;
    for _ in 0..sized.operations {
        match prepare(alloc, piece, sized.size)? {
            Prepared::Borrowed(borrowed) => return time_of_borrowed(
                clock,
                alloc,
                &borrowed,
                sized.operations,
            ),
            Prepared::Given(given) => {
                spent = spent.saturating_add(time_of_given(clock, alloc, given)?);
            }
        }
    }
    Ok(spent)
}

/// Writes the line of a run, and tells of one that took over a second.
fn tell<O: Write, E: Write>(
    alloc: Global,
    name: &str,
    sized: Sized,
    nanoseconds: u128,
    out: &mut O,
    err: &mut E,
) -> Result<(), Stop> {
    let Sized { size, operations } = sized;
    let line = format!(in alloc; "{name}-{size}|{operations}|{nanoseconds}\n")?;
    out.write_all(line.as_bytes())?;
    if nanoseconds > SECOND {
        let seconds = nanoseconds / SECOND;
        let line = format!(in alloc; "{name}-{size}: a run took {seconds} seconds\n")?;
        let _ = err.write_all(line.as_bytes());
    }
    Ok(())
}

/// The least time of an operation of a piece at a size, and the least memory, of several runs.
fn least<R: Clock + Files + AllocGlobal, O: Write, E: Write>(
    rt: &R,
    alloc: Global,
    row: &Row,
    sized: Sized,
    out: &mut O,
    err: &mut E,
) -> Result<Least, Stop> {
    let (name, piece) = (row.0, row.1);
    let (mut tenths, mut kib) = (u128::MAX, None);
    for _ in 0..RUNS {
        forget_peak(rt);
        let nanoseconds = time_of_run(rt, alloc, piece, sized)?;
        kib = lesser(kib, peak(rt));
        tell(alloc, name, sized, nanoseconds, out, err)?;
        tenths = tenths.min(tenths_of(nanoseconds, sized.operations));
    }
    Ok(Least {
        name,
        size: sized.size,
        tenths,
        kib,
    })
}

/// Times a piece at its sizes, and adds what was measured.
fn time_piece<R: Clock + Files + AllocGlobal, O: Write, E: Write>(
    rt: &R,
    alloc: Global,
    row: &Row,
    measured: &mut Vec<Least>,
    out: &mut O,
    err: &mut E,
) -> Result<(), Stop> {
    for &(size, operations) in row.2 {
        let sized = Sized { size, operations };
        measured.push(least(rt, alloc, row, sized, out, err)?)?;
    }
    Ok(())
}

/// Times some pieces, and writes the table, beside earlier figures where there are any.
fn time<R: Clock + Files + AllocGlobal, O: Write, E: Write>(
    rt: &R,
    alloc: Global,
    rows: &[Row],
    earlier: Option<&str>,
    out: &mut O,
    err: &mut E,
) -> Result<(), Stop> {
    let mut measured = Vec::new(alloc);
    for row in rows {
        time_piece(rt, alloc, row, &mut measured, out, err)?;
    }
    out.write_all(table(alloc, &measured, earlier)?.as_bytes())?;
    Ok(())
}

/// The figures of a file.
fn figures<R: Files + AllocGlobal>(rt: &R, file: &str) -> Result<String, Stop> {
    fs::read_to_string(rt, file).map_err(|error| match error.kind() {
        io::ErrorKind::OutOfMemory => Stop::Memory,
        _ => Stop::Figures,
    })
}

/// Does what a command asks for.
fn carry_out<R: Clock + Files + AllocGlobal, O: Write, E: Write>(
    rt: &R,
    alloc: Global,
    command: Command<'_>,
    out: &mut O,
    err: &mut E,
) -> Result<(), Stop> {
    match command {
        Command::Once => once(alloc, out),
        Command::TimeAll => time(rt, alloc, rows(), None, out, err),
        Command::Time(row) => time(rt, alloc, &[*row], None, out, err),
        Command::CompareAll(file) => {
            let earlier = figures(rt, file)?;
            time(rt, alloc, rows(), Some(&earlier), out, err)
        }
        Command::Compare(file, row) => {
            let earlier = figures(rt, file)?;
            time(rt, alloc, &[*row], Some(&earlier), out, err)
        }
    }
}

/// The status that goes with why the program stopped, of which `err` gets a line: 1 where what was
/// made ready was refused, 3 where memory ran out, and 4 where the clock, a writer or the file of
/// earlier figures refused. A failed write to `err` is ignored.
fn stopped<E: Write>(stop: Stop, err: &mut E) -> u8
    ensures { (result ≡ 1) ⊎ ((result ≡ 3) ⊎ (result ≡ 4)) }
{
    let (line, status) = match stop {
        Stop::Refused => ("refused\n", 1),
        Stop::Memory => ("memory\n", 3),
        Stop::System => ("system\n", 4),
        Stop::Figures => ("the file of earlier figures can't be read\n", 4),
    };
    let _ = err.write_all(line.as_bytes());
    status
}

/// Does what the words say, and answers the status.
///
/// - 0: what was asked for is printed on `out`.
/// - 1: what was made ready was refused; `err` has the line `refused`.
/// - 2: the words give no command; `err` has the line on usage.
/// - 3: memory ran out; `err` has the line `memory`.
/// - 4: the clock couldn't be read, or `out` couldn't be written, and `err` has the line `system`;
///   or the file of earlier figures couldn't be read, of which `err` has a line.
///
/// A failed write to `err` is ignored.
pub fn run<R: Clock + Files + AllocGlobal, O: Write, E: Write>(
    rt: &R,
    alloc: Global,
    words: &[String],
    out: &mut O,
    err: &mut E,
) -> u8
    ensures usage { (result ≡ 2) ↔ (¬ IsCommand (map string_bytes words.now)) }
{
    let Some(command) = command_of(words) else {
        let _ = err.write_all(USAGE.as_bytes());
        return 2;
    };
    match carry_out(rt, alloc, command, out, err) {
        Ok(()) => 0,
        Err(stop) => stopped(stop, err),
    }
}

/// Answers the status where the words couldn't be read: 3 where memory ran out, and 2 for a word
/// that is no text. A failed write to `err` is ignored.
pub fn unread<E: Write>(error: &io::Error, err: &mut E) -> u8
    ensures { (result ≡ 2) ⊎ (result ≡ 3) }
{
    if error.kind() == io::ErrorKind::OutOfMemory {
        let _ = err.write_all(b"memory\n");
        return 3;
    }
    let _ = err.write_all(USAGE.as_bytes());
    2
}
