//! An edge that is followed to a block that has no row yet: the row is made in the place where it
//! stays, so that it is not copied.
ghost use Rattle.std.specs.Prelude.{◌≡◌, ◌+◌, ◌<◌, ◌≤◌, ℕ, true, length, count_by, Some, None, slice_index_or, slice_set};
ghost use Rattle.cc_base.specs.Rows.{row_rounded_if};
ghost use Rattle.cc_base.specs.InductiveMap.{row_at, IsOwn};
ghost use Rattle.fixpoint.specs.Pool.Pool.{row_of, IsTaken, IsWhole, free_count, SameBut};
ghost use Rattle.fixpoint.specs.Solver.SolverState.{advance, head_grows};
ghost use Rattle.fixpoint.specs.Solver.RowMap.{is_vacant, state_in, rows_in, IsHeldBeside, Changed};

use crate::pool::{Row, RowPool};
use crate::solver::arrival::{round_if, set_row, take_row};
use crate::solver::following::leave;
use cc_base::{Steps, System};
use std::sync::ledger::Ledger;

pub(crate) fn is_vacant(slot: &Option<Row>) -> bool
    ensures { result ≡ is_vacant slot.now }
{
    match slot {
        Some(_) => false,
        None => true,
    }
}

// What the edge makes of its source's row arrives at its target `to`, which has no row. Says whether
// that is a head that is reached now. The row in `spare` stays.
pub(crate) fn discover<S: System, L: Ledger>(
    system: &S,
    pool: &mut RowPool<S::Cell>,
    map: &mut [Option<Row>],
    edge: u32,
    to: u32,
    spare: &Row,
    steps: &mut Steps<L>,
) -> bool
    requires valid { S.valid system.now }
    requires edge { edge < (S.machine system.now).edges }
    requires to { to ≡ (S.machine system.now).target edge }
    requires size { length map.old ≡ (S.machine system.now).blocks }
    requires vacant { is_vacant (slice_index_or map.old to None) ≡ true }
    requires held { IsHeldBeside pool.old map.old spare.now.index }
    requires room { count_by is_vacant map.old ≤ free_count pool.old }
    requires own { (b : ℕ) → IsOwn (S.machine system.now) (row_at (rows_in pool.old map.old) b) }
    ensures changed { Changed pool.old map.old spare.now.index pool.new map.new }
    ensures state { state_in pool.new map.new ≡ advance S.Cell.lattice (S.machine system.now) edge (state_in pool.old map.old) }
    ensures grew { result ≡ head_grows S.Cell.lattice (S.machine system.now) edge (state_in pool.old map.old) }
    ensures ticks { steps.new ≤ steps.old + 1 }
{
    let _spare = spare;
    let from = system.edge_from(edge) as usize;
    let row = take_row(pool);
    if leave(system, pool, &map[from], edge, &row, steps) {
        settle(system, pool, map, to, row)
    } else {
        pool.give(row);
        false
    }
}

// A row becomes the row of a block that has none. Says whether the block is a head.
fn settle<S: System>(
    system: &S,
    pool: &mut RowPool<S::Cell>,
    map: &mut [Option<Row>],
    block: u32,
    row: Row,
) -> bool
    requires valid { S.valid system.now }
    requires block { block < (S.machine system.now).blocks }
    requires size { length map.old ≡ (S.machine system.now).blocks }
    requires vacant { slice_index_or map.old block None ≡ None }
    requires whole { IsWhole pool.old }
    requires taken { IsTaken pool.old row.index }
    ensures same_but { SameBut pool.old pool.new row.index }
    ensures row { row_of pool.new row.index ≡ row_rounded_if S.Cell.lattice (S.machine system.now).list ((S.machine system.now).head block) (row_of pool.old row.index) }
    ensures map { map.new ≡ slice_set map.old block (Some (record row { marked = true })) }
    ensures head { result ≡ (S.machine system.now).head block }
{
    let is_head = system.is_head(block);
    let mut settled = row;
    settled.mark();
    round_if(pool, &settled, is_head, system.thresholds());
    set_row(&mut map[block as usize], settled);
    is_head
}
