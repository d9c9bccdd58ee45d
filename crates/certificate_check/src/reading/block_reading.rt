//! The lines of a block.
ghost use Rattle.std.specs.Prelude.{◌≡◌, IfOk, Some, false, length};
ghost use Rattle.certificate_check.specs.Reading.CellReading.{row_reading};
ghost use Rattle.certificate_check.specs.Reading.GreatestRows.{least_row};
ghost use Rattle.certificate_check.specs.Reading.BlockReading.{block_of, behind_line, row_read, behind_first, block_read};

use crate::reading::cell_reading::{Reading, failed, read_cells};
use crate::reading::greatest_rows::clear_row;
use crate::reading::text_places::{line_at, next_place};
use certificate_text::lines::MapLine;
use interval_domain::intervals::Interval;
use std::alloc::{AllocError, Global};
use value_domain::values::Cell;

/// Whether a block is reached, and how far its lines were read.
#[derive(Clone, Copy)]
pub struct BlockRead {
    pub reading: Reading,
    pub reached: bool,
}

fn behind_line(text: &[u8], reading: Reading) -> Reading
    ensures { result ≡ behind_line text.now reading }
{
    Reading {
        at: next_place(text, reading.at),
        from: 0,
        good: reading.good,
    }
}

/// Reads the lines of the cells of a block.
fn read_row(
    alloc: Global,
    greatest: &[Cell<Interval>],
    text: &[u8],
    count: u32,
    reading: Reading,
    row: &mut [Cell<Interval>],
) -> Result<BlockRead, AllocError>
    requires { length row.old ≡ length greatest.now }
    ensures { IfOk result (λ b. block_of b row.new ≡ row_read greatest.now text.now count reading) }
{
    clear_row(greatest, row);
    let reading = read_cells(
        alloc,
        greatest,
        text,
        count,
        behind_line(text, reading),
        row,
    )?;
    Ok(BlockRead {
        reading,
        reached: true,
    })
}

/// What is read of a block that is not reached.
fn without_row(reading: Reading) -> BlockRead
    ensures reading { result.reading ≡ reading }
    ensures reached { result.reached ≡ false }
{
    BlockRead {
        reading,
        reached: false,
    }
}

/// Reads the lines of a block behind its first one.
fn read_behind(
    alloc: Global,
    greatest: &[Cell<Interval>],
    text: &[u8],
    reading: Reading,
    row: &mut [Cell<Interval>],
    line: MapLine,
) -> Result<BlockRead, AllocError>
    requires { length row.old ≡ length greatest.now }
    ensures { IfOk result (λ b. block_of b row.new ≡ behind_first greatest.now text.now reading (Some line)) }
{
    match line {
        MapLine::Unreached => Ok(without_row(behind_line(text, reading))),
        MapLine::Reached(count) => {
            if count as usize <= greatest.len() {
                read_row(alloc, greatest, text, count, reading, row)
            } else {
                Ok(without_row(failed(reading)))
            }
        }
        MapLine::Placed(_, _) => Ok(without_row(failed(reading))),
    }
}

fn read_behind_any(
    alloc: Global,
    greatest: &[Cell<Interval>],
    text: &[u8],
    reading: Reading,
    row: &mut [Cell<Interval>],
    line: Option<MapLine>,
) -> Result<BlockRead, AllocError>
    requires { length row.old ≡ length greatest.now }
    ensures { IfOk result (λ b. block_of b row.new ≡ behind_first greatest.now text.now reading line) }
{
    match line {
        Some(found) => read_behind(alloc, greatest, text, reading, row, found),
        None => Ok(without_row(failed(reading))),
    }
}

/// Reads the lines of a block.
#[tactic(auto, unfolding(crate::specs::Reading::BlockReading::block_read))]
pub fn read_block(
    alloc: Global,
    greatest: &[Cell<Interval>],
    text: &[u8],
    reading: Reading,
    row: &mut [Cell<Interval>],
) -> Result<BlockRead, AllocError>
    requires { length row.old ≡ length greatest.now }
    ensures { IfOk result (λ b. block_of b row.new ≡ block_read greatest.now text.now reading) }
{
    if reading.good {
        let line = line_at(alloc, text, reading.at)?;
        read_behind_any(alloc, greatest, text, reading, row, line)
    } else {
        Ok(without_row(reading))
    }
}
