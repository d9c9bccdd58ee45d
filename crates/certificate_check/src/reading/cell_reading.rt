//! The lines of the cells of a row, read one after the other.
ghost use Rattle.std.specs.Prelude.{◌≡◌, IfOk, length};
ghost use Rattle.certificate_check.specs.Reading.CellReading.{failed, row_reading, placed, behind_cell, cell_read, cells_read};

use crate::reading::cell_places::has_place;
use crate::reading::text_places::{line_at, next_place};
use certificate_text::lines::MapLine;
use interval_domain::intervals::Interval;
use std::alloc::{AllocError, Global};
use value_domain::values::Cell;

/// How far a text has been read.
#[derive(Clone, Copy)]
pub struct Reading {
    /// The place of the first byte of the next line.
    pub at: usize,
    /// The least position that the next cell may have.
    pub from: usize,
    /// Whether some text of the form begins with what was read, as far as it was.
    pub good: bool,
}

/// The reading of a line that cannot be the next one.
pub fn failed(reading: Reading) -> Reading
    ensures { result ≡ failed reading }
{
    Reading {
        at: reading.at,
        from: reading.from,
        good: false,
    }
}

/// Puts the cell of a line into its row.
fn place(
    greatest: &[Cell<Interval>],
    text: &[u8],
    owed: u32,
    reading: Reading,
    row: &mut [Cell<Interval>],
    line: MapLine,
) -> Reading
    requires { length row.old ≡ length greatest.now }
    ensures { row_reading result row.new ≡ behind_cell greatest.now text.now owed (row_reading reading row.old) (Some line) }
{
    match line {
        MapLine::Placed(at, cell) => {
            if has_place(greatest, owed, reading.from, at, &cell) {
                row[at as usize] = cell;
                Reading {
                    at: next_place(text, reading.at),
                    from: at as usize + 1,
                    good: reading.good,
                }
            } else {
                failed(reading)
            }
        }
        MapLine::Unreached => failed(reading),
        MapLine::Reached(_) => failed(reading),
    }
}

fn place_if_any(
    greatest: &[Cell<Interval>],
    text: &[u8],
    owed: u32,
    reading: Reading,
    row: &mut [Cell<Interval>],
    line: Option<MapLine>,
) -> Reading
    requires { length row.old ≡ length greatest.now }
    ensures { row_reading result row.new ≡ behind_cell greatest.now text.now owed (row_reading reading row.old) line }
{
    match line {
        Some(found) => place(greatest, text, owed, reading, row, found),
        None => failed(reading),
    }
}

/// Reads the line of a cell.
#[tactic(auto, unfolding(crate::specs::Reading::CellReading::cell_read))]
fn read_cell(
    alloc: Global,
    greatest: &[Cell<Interval>],
    text: &[u8],
    owed: u32,
    reading: Reading,
    row: &mut [Cell<Interval>],
) -> Result<Reading, AllocError>
    requires { length row.old ≡ length greatest.now }
    ensures { IfOk result (λ r. row_reading r row.new ≡ cell_read greatest.now text.now owed (row_reading reading row.old)) }
{
    if reading.good {
        let line = line_at(alloc, text, reading.at)?;
        Ok(place_if_any(greatest, text, owed, reading, row, line))
    } else {
        Ok(reading)
    }
}

/// Reads so many lines of cells.
#[tactic(auto, using(crate::proofs::reading::ReadingSteps::cells_next))]
pub fn read_cells(
    alloc: Global,
    greatest: &[Cell<Interval>],
    text: &[u8],
    count: u32,
    reading: Reading,
    row: &mut [Cell<Interval>],
) -> Result<Reading, AllocError>
    requires { length row.old ≡ length greatest.now }
    ensures { IfOk result (λ r. row_reading r row.new ≡ cells_read greatest.now text.now count (row_reading reading row.old)) }
{
    let mut read = reading;
    let mut owed = count;
    while owed > 0 {
        owed -= 1;
        read = read_cell(alloc, greatest, text, owed, read, row)?;
    }
    Ok(read)
}
