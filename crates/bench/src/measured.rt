//! The table of what was measured.

use crate::stop::Stop;
use std::alloc::Global;

/// The least that an operation took.
#[derive(Clone, Copy)]
pub(crate) struct Least {
    /// The name of the piece.
    pub(crate) name: &'static str,
    /// At which size.
    pub(crate) size: usize,
    /// In tenths of a nanosecond.
    pub(crate) tenths: u128,
    /// How many KiB of memory the program had at its most, in the run that had least, if that is
    /// known.
    pub(crate) kib: Option<u64>,
}

/// What an earlier table has in a line, as far as it is compared.
#[derive(Clone, Copy)]
struct Earlier {
    /// The least time of an operation, in tenths of a nanosecond.
    tenths: u128,
    /// The KiB of memory, if they are told.
    kib: Option<u64>,
}

/// The tenths of a nanosecond that an operation took, of so many operations in so many nanoseconds.
pub(crate) fn tenths_of(nanoseconds: u128, operations: u32) -> u128 {
    nanoseconds.saturating_mul(10) / u128::from(operations.max(1))
}

/// The lesser of two amounts of memory, as far as they are known.
pub(crate) fn lesser(one: Option<u64>, other: Option<u64>) -> Option<u64> {
    match (one, other) {
        (Some(one), Some(other)) => Some(one.min(other)),
        (one, other) => one.or(other),
    }
}

/// Tenths that are written with a point before the last one.
fn tenths_in(text: &str) -> Option<u128> {
    let (ones, rest) = text.split_once('.')?;
    let (ones, rest): (u128, u128) = (ones.parse().ok()?, rest.parse().ok()?);
    Some(ones.saturating_mul(10).saturating_add(rest))
}

/// What a line of a table says, if it is of the piece at the size.
fn said_in(line: &str, row: &Least) -> Option<Earlier> {
    let mut fields = line.split('|');
    let is_of_piece = fields.next()? == row.name;
    let size: usize = fields.next()?.parse().ok()?;
    let tenths = tenths_in(fields.next()?)?;
    let _growth = fields.next();
    let kib = fields.next().and_then(|field| field.parse().ok());
    (is_of_piece && size == row.size).then_some(Earlier { tenths, kib })
}

/// What an earlier table says of the piece at the size.
fn said_of(earlier: &str, row: &Least) -> Option<Earlier> {
    for line in earlier.lines() {
        let said = said_in(line, row);
        if said.is_some() {
            return said;
        }
    }
    None
}

/// How many times the earlier figure the later one is, to a hundredth.
fn ratio(alloc: Global, earlier: u128, later: u128) -> Result<String, Stop> {
    let hundredths = later.saturating_mul(100) / earlier.max(1);
    let (ones, tens, rest) = (hundredths / 100, hundredths / 10 % 10, hundredths % 10);
    Ok(format!(in alloc; "{ones}.{tens}{rest}")?)
}

/// The ratio of two amounts of memory; nothing where one isn't known.
fn memory_ratio(alloc: Global, earlier: Option<u64>, later: Option<u64>) -> Result<String, Stop> {
    match (earlier, later) {
        (Some(earlier), Some(later)) => ratio(alloc, u128::from(earlier), u128::from(later)),
        _ => Ok(String::new(alloc)),
    }
}

/// The ratios of time and memory to the earlier figures of the row, each after a bar; nothing where
/// there are none.
fn ratios(alloc: Global, earlier: Option<&str>, row: &Least) -> Result<String, Stop> {
    let Some(said) = earlier.and_then(|text| said_of(text, row)) else {
        return Ok(String::new(alloc));
    };
    let time = ratio(alloc, said.tenths, row.tenths)?;
    let memory = memory_ratio(alloc, said.kib, row.kib)?;
    Ok(format!(in alloc; "|{time}|{memory}")?)
}

/// How much longer an operation takes than at the size before, to a tenth; nothing for the first
/// size of a piece.
fn growth(alloc: Global, before: Option<&Least>, row: &Least) -> Result<String, Stop> {
    match before {
        Some(before) if before.name == row.name => {
            let tenths = row.tenths.saturating_mul(10) / before.tenths.max(1);
            let (ones, rest) = (tenths / 10, tenths % 10);
            Ok(format!(in alloc; "{ones}.{rest}")?)
        }
        _ => Ok(String::new(alloc)),
    }
}

/// The number of KiB, or nothing where it isn't known.
fn memory_text(alloc: Global, kib: Option<u64>) -> Result<String, Stop> {
    match kib {
        Some(kib) => Ok(format!(in alloc; "{kib}")?),
        None => Ok(String::new(alloc)),
    }
}

/// The line of the table for a piece at a size.
fn line(
    alloc: Global,
    before: Option<&Least>,
    row: &Least,
    earlier: Option<&str>,
) -> Result<String, Stop> {
    let growth = growth(alloc, before, row)?;
    let memory = memory_text(alloc, row.kib)?;
    let ratios = ratios(alloc, earlier, row)?;
    let (name, size) = (row.name, row.size);
    let (ones, rest) = (row.tenths / 10, row.tenths % 10);
    Ok(format!(in alloc; "{name}|{size}|{ones}.{rest}|{growth}|{memory}{ratios}\n")?)
}

/// The head of the table, with two columns more beside earlier figures.
fn head(earlier: Option<&str>) -> &'static str {
    if earlier.is_some() {
        "PIECE|SIZE|NANOSECONDS AN OPERATION|GROWTH|KIB|RATIO OF TIME|RATIO OF MEMORY\n"
    } else {
        "PIECE|SIZE|NANOSECONDS AN OPERATION|GROWTH|KIB\n"
    }
}

/// The table: for each piece and size the least nanoseconds that an operation took, how many times
/// that is of what it took at the size before, and the KiB of memory that the program had at its
/// most; and, where there is an earlier table, how many times its time and memory these are.
pub(crate) fn table(alloc: Global, rows: &[Least], earlier: Option<&str>) -> Result<String, Stop> {
    let mut text = String::from_str(alloc, head(earlier))?;
    let mut before = None;
    for row in rows {
        text.push_str(&line(alloc, before, row, earlier)?)?;
        before = Some(row);
    }
    Ok(text)
}
