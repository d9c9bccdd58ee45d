//! The text of a map, read block by block into rows of a pool.
ghost use Rattle.std.specs.Prelude.{◌≡◌, ◌+◌, ◌<◌, ◌≤◌, ℕ, true, false, length, None, Some, IfOk, count_by, slice_index_or};
ghost use Rattle.std.proofs.Common.{replicate};
ghost use Rattle.fixpoint.specs.Pool.Pool.{row_of, with_taken, IsTaken, IsFree, IsWhole, free_count, SameBut};
ghost use Rattle.fixpoint.specs.Solver.RowMap.{slot_row, is_held, rows_in, SlotChanged};
ghost use Rattle.certificate_check.specs.Reading.GreatestRows.{cert_numbers, greatest_row};
ghost use Rattle.certificate_check.specs.Reading.BlockReading.{block_read, block_of};
ghost use Rattle.certificate_check.specs.Reading.MapReading.{has_head, head_read, rows_read, blocks_behind, map_rows, map_reading, is_whole};
ghost use Rattle.certificate_check.specs.Reading.FilledMaps.{Filled};

use crate::reading::block_reading::read_block;
use crate::reading::cell_reading::Reading;
use crate::reading::text_places::next_place;
use cc_base::Memory;
use certificate_text::lines::{same_bytes, until};
use certificate_text::maps::head_text;
use cfg::Flow;
use fixpoint::pool::{Row, RowPool};
use interval_domain::intervals::Interval;
use std::alloc::Global;
use std::mem;
use value_domain::values::Cell;

/// A row of a pool that has one.
fn take_row(pool: &mut RowPool<Cell<Interval>>) -> Row
    requires { 0 < free_count pool.old }
    ensures free { IsFree pool.old result.index }
    ensures taken { pool.new ≡ with_taken pool.old result.index }
    ensures whole { IsWhole pool.new }
    ensures in_use { IsTaken pool.new result.index }
{
    match pool.take() {
        Some(row) => row,
        None => unreachable!(),
    }
}

/// A row of a pool with given cells.
fn new_row(pool: &mut RowPool<Cell<Interval>>, cells: &[Cell<Interval>]) -> Row
    requires whole { IsWhole pool.old }
    requires room { 0 < free_count pool.old }
    requires width { length cells.now ≡ pool.old.width }
    ensures free { IsFree pool.old result.index }
    ensures same_but { SameBut (with_taken pool.old result.index) pool.new result.index }
    ensures row { row_of pool.new result.index ≡ cells.now }
{
    let row = take_row(pool);
    pool.row_mut(&row).copy_from_slice(cells);
    row
}

fn set_slot(slot: &mut Option<Row>, row: Row)
    requires { slot.old ≡ None }
    ensures { slot.new ≡ Some row }
{
    match mem::replace(slot, Some(row)) {
        None => {}
        Some(_) => unreachable!(),
    }
}

/// Puts cells into a row of the pool, for an entry of a map that has none.
fn store(pool: &mut RowPool<Cell<Interval>>, slot: &mut Option<Row>, cells: &[Cell<Interval>])
    requires whole { IsWhole pool.old }
    requires room { 0 < free_count pool.old }
    requires width { length cells.now ≡ pool.old.width }
    requires vacant { slot.old ≡ None }
    ensures changed { SlotChanged pool.old None pool.new slot.new }
    ensures row { slot_row pool.new slot.new ≡ Some cells.now }
{
    let row = new_row(pool, cells);
    set_slot(slot, row);
}

/// Reads the lines of a block, and puts its row into an entry of the map that has none. The row that
/// is given is written over.
fn read_slot(
    alloc: Global,
    greatest: &[Cell<Interval>],
    text: &[u8],
    reading: Reading,
    row: &mut [Cell<Interval>],
    pool: &mut RowPool<Cell<Interval>>,
    slot: &mut Option<Row>,
) -> Result<Reading, Memory>
    requires length { length row.old ≡ length greatest.now }
    requires whole { IsWhole pool.old }
    requires room { 0 < free_count pool.old }
    requires width { length greatest.now ≡ pool.old.width }
    requires vacant { slot.old ≡ None }
    ensures changed { SlotChanged pool.old None pool.new slot.new }
    ensures reading { IfOk result (λ r. r ≡ (block_read greatest.now text.now reading).reading) }
    ensures row { IfOk result (λ r. slot_row pool.new slot.new ≡ (block_read greatest.now text.now reading).row) }
{
    let block = read_block(alloc, greatest, text, reading, row)?;
    if block.reached {
        store(pool, slot, row);
    }
    Ok(block.reading)
}

/// Reads the lines of as many blocks as the map has entries.
fn read_slots(
    alloc: Global,
    greatest: &[Cell<Interval>],
    text: &[u8],
    reading: Reading,
    row: &mut [Cell<Interval>],
    pool: &mut RowPool<Cell<Interval>>,
    map: &mut [Option<Row>],
) -> Result<Reading, Memory>
    requires length { length row.old ≡ length greatest.now }
    requires whole { IsWhole pool.old }
    requires room { length map.old ≤ free_count pool.old }
    requires width { length greatest.now ≡ pool.old.width }
    requires vacant { map.old ≡ replicate (length map.old) None }
    ensures filled { Filled pool.old pool.new map.new (length map.old) }
    ensures reading { IfOk result (λ r. r ≡ blocks_behind greatest.now text.now reading (length map.old)) }
    ensures rows { IfOk result (λ r. rows_in pool.new map.new ≡ rows_read greatest.now text.now reading (length map.old)) }
{
    let mut read = reading;
    for block in 0..map.len() {
        read = read_slot(alloc, greatest, text, read, row, pool, &mut map[block])?;
    }
    Ok(read)
}

#[tactic(auto, unfolding(crate::specs::Reading::MapReading::has_head))]
fn has_head(alloc: Global, flow: &Flow, text: &[u8]) -> Result<bool, Memory>
    ensures { IfOk result (λ held. held ≡ has_head flow.now text.now) }
{
    let line = until(text, 10);
    let head = head_text(alloc, flow.blocks.len(), flow.width)?;
    Ok(line.len() < text.len() && same_bytes(line, head.as_bytes()))
}

/// Reads the first line.
#[tactic(auto, unfolding(crate::specs::Reading::MapReading::head_read))]
fn read_head(alloc: Global, flow: &Flow, text: &[u8]) -> Result<Reading, Memory>
    ensures { IfOk result (λ r. r ≡ head_read flow.now text.now) }
{
    let good = has_head(alloc, flow, text)?;
    let at = if good { next_place(text, 0) } else { 0 };
    Ok(Reading { at, from: 0, good })
}

/// Reads the text of a map of the program into rows of the pool, one for each block that is reached,
/// as far as it is of the form. The greatest row of the program is given, and a row that is written
/// over.
///
/// # Errors
///
/// Want of memory. The map has rows then, too.
#[tactic(auto, unfolding(crate::specs::Reading::MapReading::map_rows, crate::specs::Reading::MapReading::map_reading))]
pub fn read_map(
    alloc: Global,
    flow: &Flow,
    greatest: &[Cell<Interval>],
    text: &[u8],
    row: &mut [Cell<Interval>],
    pool: &mut RowPool<Cell<Interval>>,
    map: &mut [Option<Row>],
) -> Result<Reading, Memory>
    requires greatest { greatest.now ≡ greatest_row flow.now }
    requires length { length row.old ≡ length greatest.now }
    requires width { length greatest.now ≡ pool.old.width }
    requires size { length map.old ≡ length flow.now.blocks.items }
    requires vacant { map.old ≡ replicate (length map.old) None }
    requires room { length map.old ≤ free_count pool.old }
    ensures filled { Filled pool.old pool.new map.new (length map.old) }
    ensures reading { IfOk result (λ r. r ≡ map_reading flow.now text.now) }
    ensures rows { IfOk result (λ r. rows_in pool.new map.new ≡ map_rows flow.now text.now) }
{
    let _width = pool.width();
    let head = read_head(alloc, flow, text)?;
    read_slots(alloc, greatest, text, head, row, pool, map)
}

/// Whether the whole text was read.
pub fn is_whole(text: &[u8], reading: Reading) -> bool
    ensures { result ≡ is_whole text.now reading }
{
    reading.good && reading.at == text.len()
}
