//! A row that arrives at a block.
ghost use Rattle.std.specs.Prelude.{◌≡◌, ◌≢◌, ◌+◌, ◌<◌, ◌≤◌, ◌||◌, ℕ, true, length, count_by, Some, None};
ghost use Rattle.cc_base.specs.Rows.{row_round, row_rounded_if};
ghost use Rattle.cc_base.specs.InductiveMap.{row_at};
ghost use Rattle.fixpoint.specs.Pool.Pool.{row_of, with_taken, IsTaken, IsFree, IsWhole, free_count, SameBut};
ghost use Rattle.fixpoint.specs.Solver.SolverState.{arrived, grows, arrive as arrive_of};
ghost use Rattle.fixpoint.specs.Solver.RowMap.{slot_row, slot_mark, slot_index, is_vacant, state_in, rows_in, IsHeldBeside, Changed, SlotChanged};

use crate::pool::{Row, RowPool};
use cc_base::{Lattice, System, Thresholds};
use std::mem;

// The row in `spare` arrives at a block. Says whether the block's row grew, and marks it then.
pub(crate) fn arrive<S: System>(
    system: &S,
    pool: &mut RowPool<S::Cell>,
    map: &mut [Option<Row>],
    block: u32,
    spare: &Row,
) -> bool
    requires valid { S.valid system.now }
    requires block { block < (S.machine system.now).blocks }
    requires size { length map.old ≡ (S.machine system.now).blocks }
    requires held { IsHeldBeside pool.old map.old spare.now.index }
    requires room { count_by is_vacant map.old ≤ free_count pool.old }
    ensures changed { Changed pool.old map.old spare.now.index pool.new map.new }
    ensures state { state_in pool.new map.new ≡ arrive_of S.Cell.lattice (S.machine system.now) block (row_of pool.old spare.now.index) (state_in pool.old map.old) }
    ensures grew { result ≡ grows S.Cell.lattice (row_at (rows_in pool.old map.old) block) (row_of pool.old spare.now.index) }
{
    arrive_at(
        &mut map[block as usize],
        pool,
        spare,
        system.is_head(block),
        system.thresholds(),
    )
}

// The same for one entry of the map.
fn arrive_at<C: Lattice>(
    slot: &mut Option<Row>,
    pool: &mut RowPool<C>,
    spare: &Row,
    rounding: bool,
    list: &Thresholds,
) -> bool
    requires whole { IsWhole pool.old }
    requires spare { IsTaken pool.old spare.now.index }
    requires taken { (i : ℕ) → slot_index slot.old ≡ Some i → IsTaken pool.old i }
    requires apart { slot_index slot.old ≡ Some spare.now.index → ⊥ }
    requires room { slot.old ≡ None → 0 < free_count pool.old }
    ensures changed { SlotChanged pool.old slot.old pool.new slot.new }
    ensures row { slot_row pool.new slot.new ≡ Some (arrived C.lattice list.now rounding (slot_row pool.old slot.old) (row_of pool.old spare.now.index)) }
    ensures mark { slot_mark slot.new ≡ (grows C.lattice (slot_row pool.old slot.old) (row_of pool.old spare.now.index) || slot_mark slot.old) }
    ensures grew { result ≡ grows C.lattice (slot_row pool.old slot.old) (row_of pool.old spare.now.index) }
{
    match slot {
        Some(row) => absorb_at(row, pool, spare, rounding, list),
        None => {
            let row = new_row(pool, spare, rounding, list);
            set_row(slot, row);
            true
        }
    }
}

// The same for a row of the map.
fn absorb_at<C: Lattice>(
    row: &mut Row,
    pool: &mut RowPool<C>,
    spare: &Row,
    rounding: bool,
    list: &Thresholds,
) -> bool
    requires whole { IsWhole pool.old }
    requires spare { IsTaken pool.old spare.now.index }
    requires taken { IsTaken pool.old row.old.index }
    requires apart { spare.now.index ≢ row.old.index }
    ensures index { row.new.index ≡ row.old.index }
    ensures same_but { SameBut pool.old pool.new row.old.index }
    ensures row { row_of pool.new row.old.index ≡ arrived C.lattice list.now rounding (Some (row_of pool.old row.old.index)) (row_of pool.old spare.now.index) }
    ensures mark { row.new.marked ≡ (grows C.lattice (Some (row_of pool.old row.old.index)) (row_of pool.old spare.now.index) || row.old.marked) }
    ensures grew { result ≡ grows C.lattice (Some (row_of pool.old row.old.index)) (row_of pool.old spare.now.index) }
{
    let grew = pool.absorb(spare, row, rounding, list);
    mark_if(row, grew);
    grew
}

fn mark_if(row: &mut Row, grew: bool)
    ensures index { row.new.index ≡ row.old.index }
    ensures mark { row.new.marked ≡ (grew || row.old.marked) }
{
    if grew {
        row.mark();
    }
}

// A marked row with the cells of `spare`, each of them rounded if `rounding` is set.
fn new_row<C: Lattice>(pool: &mut RowPool<C>, spare: &Row, rounding: bool, list: &Thresholds) -> Row
    requires whole { IsWhole pool.old }
    requires spare { IsTaken pool.old spare.now.index }
    requires room { 0 < free_count pool.old }
    ensures free { IsFree pool.old result.index }
    ensures marked { result.marked ≡ true }
    ensures same_but { SameBut (with_taken pool.old result.index) pool.new result.index }
    ensures row { row_of pool.new result.index ≡ row_rounded_if C.lattice list.now rounding (row_of pool.old spare.now.index) }
{
    let mut row = take_row(pool);
    row.mark();
    pool.copy(spare, &row);
    round_if(pool, &row, rounding, list);
    row
}

// A row of a pool that has one.
pub(crate) fn take_row<C: Copy>(pool: &mut RowPool<C>) -> Row
    requires { 0 < free_count pool.old }
    ensures free { IsFree pool.old result.index }
    ensures taken { pool.new ≡ with_taken pool.old result.index }
    ensures whole { IsWhole pool.new }
    ensures in_use { IsTaken pool.new result.index }
    ensures others { (s : ℕ) → IsTaken pool.old s → IsTaken pool.new s }
    ensures kept { (s : ℕ) → IsTaken pool.old s → row_of pool.new s ≡ row_of pool.old s }
    ensures count { free_count pool.new + 1 ≡ free_count pool.old }
{
    match pool.take() {
        Some(row) => row,
        None => unreachable!(),
    }
}

pub(crate) fn round_if<C: Lattice>(
    pool: &mut RowPool<C>,
    row: &Row,
    rounding: bool,
    list: &Thresholds,
)
    requires whole { IsWhole pool.old }
    requires taken { IsTaken pool.old row.now.index }
    ensures same_but { SameBut pool.old pool.new row.now.index }
    ensures row { row_of pool.new row.now.index ≡ row_rounded_if C.lattice list.now rounding (row_of pool.old row.now.index) }
{
    if rounding {
        round_row(pool.row_mut(row), list);
    }
}

fn round_row<C: Lattice>(row: &mut [C], list: &Thresholds)
    ensures { row.new ≡ row_round C.lattice list.now row.old }
{
    for i in 0..row.len() {
        row[i] = row[i].round(list);
    }
}

pub(crate) fn set_row(slot: &mut Option<Row>, row: Row)
    requires { slot.old ≡ None }
    ensures { slot.new ≡ Some row }
{
    match mem::replace(slot, Some(row)) {
        None => {}
        Some(_) => unreachable!(),
    }
}
