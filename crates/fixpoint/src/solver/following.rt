//! An edge that is followed.
ghost use Rattle.std.specs.Prelude.{◌≡◌, ◌≢◌, ◌+◌, ◌<◌, ◌≤◌, ℕ, true, false, length, count_by, Some, None, if◌then◌else◌};
ghost use Rattle.cc_base.specs.InductiveMap.{row_at, step, IsOwn};
ghost use Rattle.fixpoint.specs.Pool.Pool.{row_of, IsTaken, IsWhole, free_count, SameBut};
ghost use Rattle.fixpoint.specs.Solver.SolverState.{begins, advance, head_grows};
ghost use Rattle.fixpoint.specs.Solver.RowMap.{slot_row, slot_mark, slot_index, is_vacant, unmarked, state_in, rows_in, IsHeldBeside, Changed};
ghost use Rattle.fixpoint.specs.Solver.Entering.{entered_map, follows_map};

use crate::pool::{Row, RowPool};
use crate::solver::arrival::arrive;
use crate::solver::discovery::{discover, is_vacant};
use cc_base::{Steps, System};
use std::sync::ledger::Ledger;

// A pass comes to an edge. The first edge of a block takes the block's mark off. Says whether the
// edge is followed: whether the mark was there.
pub(crate) fn enter<S: System>(
    system: &S,
    map: &mut [Option<Row>],
    edge: u32,
    following: bool,
) -> bool
    requires valid { S.valid system.now }
    requires edge { edge < (S.machine system.now).edges }
    requires size { length map.old ≡ (S.machine system.now).blocks }
    ensures map { map.new ≡ entered_map (S.machine system.now) edge map.old }
    ensures follows { result ≡ follows_map (S.machine system.now) edge map.old following }
{
    if begins_block(system, edge) {
        unmark(&mut map[system.edge_from(edge) as usize])
    } else {
        following
    }
}

fn begins_block<S: System>(system: &S, edge: u32) -> bool
    requires valid { S.valid system.now }
    requires edge { edge < (S.machine system.now).edges }
    ensures { result ≡ begins (S.machine system.now) edge }
{
    edge == 0 || system.edge_from(edge - 1) != system.edge_from(edge)
}

fn unmark(slot: &mut Option<Row>) -> bool
    ensures slot { slot.new ≡ unmarked slot.old }
    ensures was { result ≡ slot_mark slot.old }
{
    match slot {
        Some(row) => row.unmark(),
        None => false,
    }
}

// Follows the edge, if that is asked for.
pub(crate) fn follow_if<S: System, L: Ledger>(
    following: bool,
    system: &S,
    pool: &mut RowPool<S::Cell>,
    map: &mut [Option<Row>],
    edge: u32,
    spare: &Row,
    steps: &mut Steps<L>,
) -> bool
    requires valid { S.valid system.now }
    requires edge { edge < (S.machine system.now).edges }
    requires size { length map.old ≡ (S.machine system.now).blocks }
    requires held { IsHeldBeside pool.old map.old spare.now.index }
    requires room { count_by is_vacant map.old ≤ free_count pool.old }
    requires own { (b : ℕ) → IsOwn (S.machine system.now) (row_at (rows_in pool.old map.old) b) }
    ensures changed { Changed pool.old map.old spare.now.index pool.new map.new }
    ensures state { state_in pool.new map.new ≡ (if following then advance S.Cell.lattice (S.machine system.now) edge (state_in pool.old map.old) else state_in pool.old map.old) }
    ensures grew { result ≡ (if following then head_grows S.Cell.lattice (S.machine system.now) edge (state_in pool.old map.old) else false) }
    ensures ticks { steps.new ≤ steps.old + 1 }
{
    if following {
        follow(system, pool, map, edge, spare, steps)
    } else {
        false
    }
}

// What the edge makes of its source's row arrives at its target. Says whether the row of a head
// grew.
fn follow<S: System, L: Ledger>(
    system: &S,
    pool: &mut RowPool<S::Cell>,
    map: &mut [Option<Row>],
    edge: u32,
    spare: &Row,
    steps: &mut Steps<L>,
) -> bool
    requires valid { S.valid system.now }
    requires edge { edge < (S.machine system.now).edges }
    requires size { length map.old ≡ (S.machine system.now).blocks }
    requires held { IsHeldBeside pool.old map.old spare.now.index }
    requires room { count_by is_vacant map.old ≤ free_count pool.old }
    requires own { (b : ℕ) → IsOwn (S.machine system.now) (row_at (rows_in pool.old map.old) b) }
    ensures changed { Changed pool.old map.old spare.now.index pool.new map.new }
    ensures state { state_in pool.new map.new ≡ advance S.Cell.lattice (S.machine system.now) edge (state_in pool.old map.old) }
    ensures grew { result ≡ head_grows S.Cell.lattice (S.machine system.now) edge (state_in pool.old map.old) }
    ensures ticks { steps.new ≤ steps.old + 1 }
{
    let to = system.edge_to(edge);
    if is_vacant(&map[to as usize]) {
        discover(system, pool, map, edge, to, spare, steps)
    } else {
        revisit(system, pool, map, edge, spare, steps)
    }
}

// The same by way of `spare`, for a target that may have a row.
fn revisit<S: System, L: Ledger>(
    system: &S,
    pool: &mut RowPool<S::Cell>,
    map: &mut [Option<Row>],
    edge: u32,
    spare: &Row,
    steps: &mut Steps<L>,
) -> bool
    requires valid { S.valid system.now }
    requires edge { edge < (S.machine system.now).edges }
    requires size { length map.old ≡ (S.machine system.now).blocks }
    requires held { IsHeldBeside pool.old map.old spare.now.index }
    requires room { count_by is_vacant map.old ≤ free_count pool.old }
    requires own { (b : ℕ) → IsOwn (S.machine system.now) (row_at (rows_in pool.old map.old) b) }
    ensures changed { Changed pool.old map.old spare.now.index pool.new map.new }
    ensures state { state_in pool.new map.new ≡ advance S.Cell.lattice (S.machine system.now) edge (state_in pool.old map.old) }
    ensures grew { result ≡ head_grows S.Cell.lattice (S.machine system.now) edge (state_in pool.old map.old) }
    ensures ticks { steps.new ≤ steps.old + 1 }
{
    let from = system.edge_from(edge) as usize;
    if !leave(system, pool, &map[from], edge, spare, steps) {
        return false;
    }
    let to = system.edge_to(edge);
    arrive(system, pool, map, to, spare) & system.is_head(to)
}

// Leaves in `spare` what the edge makes of the row of its source. False if the edge is not taken.
pub(crate) fn leave<S: System, L: Ledger>(
    system: &S,
    pool: &mut RowPool<S::Cell>,
    slot: &Option<Row>,
    edge: u32,
    spare: &Row,
    steps: &mut Steps<L>,
) -> bool
    requires valid { S.valid system.now }
    requires edge { edge < (S.machine system.now).edges }
    requires whole { IsWhole pool.old }
    requires spare { IsTaken pool.old spare.now.index }
    requires taken { (i : ℕ) → slot_index slot.now ≡ Some i → IsTaken pool.old i }
    requires own { IsOwn (S.machine system.now) (slot_row pool.old slot.now) }
    ensures same_but { SameBut pool.old pool.new spare.now.index }
    ensures reached { result ≡ true → step (S.machine system.now) edge (slot_row pool.old slot.now) ≡ Some (row_of pool.new spare.now.index) }
    ensures unreached { result ≡ false → step (S.machine system.now) edge (slot_row pool.old slot.now) ≡ None }
    ensures ticks { steps.new ≤ steps.old + 1 }
{
    match slot {
        Some(row) => reach(system, pool, row, edge, spare, steps),
        None => false,
    }
}

fn reach<S: System, L: Ledger>(
    system: &S,
    pool: &mut RowPool<S::Cell>,
    row: &Row,
    edge: u32,
    spare: &Row,
    steps: &mut Steps<L>,
) -> bool
    requires valid { S.valid system.now }
    requires edge { edge < (S.machine system.now).edges }
    requires whole { IsWhole pool.old }
    requires spare { IsTaken pool.old spare.now.index }
    requires taken { IsTaken pool.old row.now.index }
    requires own { (S.machine system.now).own (row_of pool.old row.now.index) ≡ true }
    ensures same_but { SameBut pool.old pool.new spare.now.index }
    ensures reached { result ≡ true → (S.machine system.now).through edge (row_of pool.old row.now.index) ≡ Some (row_of pool.new spare.now.index) }
    ensures unreached { result ≡ false → (S.machine system.now).through edge (row_of pool.old row.now.index) ≡ None }
    ensures ticks { steps.new ≡ steps.old + 1 }
{
    pool.copy(row, spare);
    system.flow(edge, pool.row_mut(spare), steps)
}
