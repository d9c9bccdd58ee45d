//! The text of a map.
ghost use Rattle.std.specs.Prelude.{◌≡◌, ◌+◌, ◌<◌, ◌^◌, ◌++◌, ◌∷◌, [], ℕ, Some, IfOk, count_by, length, string_bytes};
ghost use Rattle.fixpoint.specs.Pool.Pool.{row_of, IsTaken};
ghost use Rattle.fixpoint.specs.Solver.RowMap.{IsHeld, slot_index, slot_row, rows_in};
ghost use Rattle.certificate_text.specs.Maps.MapTexts.{head_text, ended_text, is_told, cell_text, cells_text, row_text, block_text, blocks_text, text_of_map};

use crate::lines::{MapLine, line_text};
use crate::maps::least_cells::is_least;
use cc_base::Memory;
use cfg::Flow;
use fixpoint::pool::{Row, RowPool};
use interval_domain::intervals::Interval;
use std::alloc::{AllocError, Global};
use value_domain::values::Cell;

/// The first line, without its end.
#[tactic(auto, unfolding(crate::specs::Maps::MapTexts::head_text))]
pub fn head_text(alloc: Global, blocks: usize, width: u32) -> Result<String, AllocError>
    ensures { IfOk result (λ s. string_bytes s ≡ head_text blocks width) }
{
    format!(in alloc; "ccheck-cert 1 {blocks} {width}")
}

/// A line with its end.
#[tactic(auto, unfolding(crate::specs::Maps::MapTexts::ended_text))]
fn ended_text(alloc: Global, line: &MapLine) -> Result<Vec<u8>, AllocError>
    ensures { IfOk result (λ text. text.items ≡ ended_text line.now) }
{
    let mut text = line_text(alloc, line)?;
    text.push(10)?;
    Ok(text)
}

/// How many cells of a row have a line.
fn count_told(row: &[Cell<Interval>]) -> u32
    requires { length row.now < 2 ^ 32 }
    ensures { result ≡ count_by is_told row.now }
{
    let mut count = 0;
    for at in 0..row.len() {
        if !is_least(&row[at]) {
            count += 1;
        }
    }
    count
}

/// The line of a cell that has one.
fn cell_text(alloc: Global, at: u32, cell: &Cell<Interval>) -> Result<Vec<u8>, AllocError>
    ensures { IfOk result (λ text. text.items ≡ cell_text at cell.now) }
{
    if is_least(cell) {
        Ok(Vec::new(alloc))
    } else {
        ended_text(alloc, &MapLine::Placed(at, *cell))
    }
}

/// The lines of the cells of a row.
fn cells_text(alloc: Global, row: &[Cell<Interval>]) -> Result<Vec<u8>, AllocError>
    requires { length row.now < 2 ^ 32 }
    ensures { IfOk result (λ text. text.items ≡ cells_text 0 row.now) }
{
    let mut text = Vec::new(alloc);
    for at in 0..row.len() {
        let line = cell_text(alloc, at as u32, &row[at])?;
        text.extend_from_slice(line.as_slice())?;
    }
    Ok(text)
}

/// The lines of a row.
#[tactic(auto, unfolding(crate::specs::Maps::MapTexts::row_text))]
fn row_text(alloc: Global, row: &[Cell<Interval>]) -> Result<Vec<u8>, AllocError>
    requires { length row.now < 2 ^ 32 }
    ensures { IfOk result (λ text. text.items ≡ row_text row.now) }
{
    let mut text = ended_text(alloc, &MapLine::Reached(count_told(row)))?;
    let cells = cells_text(alloc, row)?;
    text.extend_from_slice(cells.as_slice())?;
    Ok(text)
}

/// The lines of a row of the pool.
fn pool_row_text(
    alloc: Global,
    pool: &RowPool<Cell<Interval>>,
    row: &Row,
) -> Result<Vec<u8>, AllocError>
    requires { IsTaken pool.now row.now.index }
    ensures { IfOk result (λ text. text.items ≡ row_text (row_of pool.now row.now.index)) }
{
    let _width = pool.width();
    row_text(alloc, pool.row(row))
}

/// The lines of a block.
fn block_text(
    alloc: Global,
    pool: &RowPool<Cell<Interval>>,
    slot: &Option<Row>,
) -> Result<Vec<u8>, AllocError>
    requires { (s : ℕ) → slot_index slot.now ≡ Some s → IsTaken pool.now s }
    ensures { IfOk result (λ text. text.items ≡ block_text (slot_row pool.now slot.now)) }
{
    match slot {
        None => ended_text(alloc, &MapLine::Unreached),
        Some(row) => pool_row_text(alloc, pool, row),
    }
}

/// The lines of all blocks.
fn blocks_text(
    alloc: Global,
    pool: &RowPool<Cell<Interval>>,
    map: &[Option<Row>],
) -> Result<Vec<u8>, AllocError>
    requires { IsHeld pool.now map.now }
    ensures { IfOk result (λ text. text.items ≡ blocks_text (rows_in pool.now map.now)) }
{
    let mut text = Vec::new(alloc);
    for block in 0..map.len() {
        let lines = block_text(alloc, pool, &map[block])?;
        text.extend_from_slice(lines.as_slice())?;
    }
    Ok(text)
}

/// The text of a map from the blocks of a program to rows of a pool: a first line with the number of
/// blocks and the length of a row; for each block a line `u` where it is not reached, else a line `r N`
/// and the lines of the N cells that are not the least of their kinds, in the order of their positions.
///
/// # Errors
///
/// Want of memory.
#[tactic(auto, unfolding(crate::specs::Maps::MapTexts::text_of_map))]
pub fn write_cert(
    alloc: Global,
    flow: &Flow,
    pool: &RowPool<Cell<Interval>>,
    map: &[Option<Row>],
) -> Result<Vec<u8>, Memory>
    requires { IsHeld pool.now map.now }
    ensures { IfOk result (λ text. text.items ≡ text_of_map flow.now (rows_in pool.now map.now)) }
{
    let head = head_text(alloc, flow.blocks.len(), flow.width)?;
    let mut text = Vec::from_slice(alloc, head.as_bytes())?;
    text.push(10)?;
    let lines = blocks_text(alloc, pool, map)?;
    text.extend_from_slice(lines.as_slice())?;
    Ok(text)
}
