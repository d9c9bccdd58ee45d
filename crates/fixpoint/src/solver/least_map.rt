//! The least inductive map.
ghost use Rattle.std.specs.Prelude.{◌≡◌, ◌+◌, ◌<◌, ◌≤◌, ℕ, true, false, length, count_by, Some, None, if◌then◌else◌};
ghost use Rattle.std.proofs.Common.{replicate};
ghost use Rattle.cc_base.specs.InductiveMap.{IsInductive, IsLeast, most_steps};
ghost use Rattle.cc_base.specs.Machine.{IsMonotone};
ghost use Rattle.fixpoint.specs.Pool.Pool.{row_of, IsTaken, IsWhole, free_count};
ghost use Rattle.fixpoint.specs.Solver.Progress.{IsSound, HasEntry, IsMarked, potential};
ghost use Rattle.fixpoint.specs.Solver.RowMap.{is_vacant, is_held, state_in, rows_in, index_at, IsHeld, IsHeldBeside, Changed};

use crate::pool::{Row, RowPool};
use crate::solver::arrival::{arrive, take_row};
use crate::solver::following::{enter, follow_if};
use cc_base::{Steps, System};
use std::sync::ledger::Ledger;

/// Fills `map`, which has a None for each block, with the rows of an inductive map of the system, the
/// least one where its edges are monotone: the rows of the blocks that are reached, and None for each
/// other block.
///
/// The pool has the system's width, and at least two rows more are free than there are blocks; all
/// that the map does not hold are free again afterwards. Other rows in use are as before. Each step
/// that is counted is one edge that is followed.
pub fn solve<S: System, L: Ledger>(
    system: &S,
    pool: &mut RowPool<S::Cell>,
    map: &mut [Option<Row>],
    steps: &mut Steps<L>,
)
    requires valid { S.valid system.now }
    requires width { pool.old.width ≡ (S.machine system.now).width }
    requires vacant { map.old ≡ replicate (S.machine system.now).blocks None }
    requires room { (S.machine system.now).blocks + 2 ≤ free_count pool.old }
    ensures inductive { IsInductive S.Cell.lattice (S.machine system.now) (rows_in pool.new map.new) }
    ensures least { IsMonotone S.Cell.lattice (S.machine system.now) → IsLeast S.Cell.lattice (S.machine system.now) (rows_in pool.new map.new) }
    ensures steps { steps.new ≤ steps.old + most_steps (S.machine system.now) }
    ensures held { IsHeld pool.new map.new }
    ensures room { free_count pool.new + count_by is_held map.new ≡ free_count pool.old }
    ensures width { pool.new.width ≡ pool.old.width }
    ensures others { (s : ℕ) → IsTaken pool.old s → IsTaken pool.new s × (row_of pool.new s ≡ row_of pool.old s) × ((b : ℕ) → index_at map.new b ≡ Some s → ⊥) }
{
    let spare = take_row(pool);
    begin(system, pool, map, &spare);
    while sweep(system, pool, map, &spare, steps) {}
    pool.give(spare);
}

// The row of the entry arrives there.
fn begin<S: System>(system: &S, pool: &mut RowPool<S::Cell>, map: &mut [Option<Row>], spare: &Row)
    requires valid { S.valid system.now }
    requires width { pool.old.width ≡ (S.machine system.now).width }
    requires vacant { map.old ≡ replicate (S.machine system.now).blocks None }
    requires whole { IsWhole pool.old }
    requires spare { IsTaken pool.old spare.now.index }
    requires room { (S.machine system.now).blocks ≤ free_count pool.old }
    ensures changed { Changed pool.old map.old spare.now.index pool.new map.new }
    ensures sound { IsSound S.Cell.lattice (S.machine system.now) (rows_in pool.new map.new) }
    ensures entry { HasEntry S.Cell.lattice (S.machine system.now) (rows_in pool.new map.new) }
    ensures marked { IsMarked S.Cell.lattice (S.machine system.now) (state_in pool.new map.new) }
{
    system.start(pool.row_mut(spare));
    let _grew = arrive(system, pool, map, 0, spare);
}

// One pass over the edges, in order, that follows the edges of marked blocks. Says whether the row
// of a head grew.
fn sweep<S: System, L: Ledger>(
    system: &S,
    pool: &mut RowPool<S::Cell>,
    map: &mut [Option<Row>],
    spare: &Row,
    steps: &mut Steps<L>,
) -> bool
    requires valid { S.valid system.now }
    requires held { IsHeldBeside pool.old map.old spare.now.index }
    requires room { count_by is_vacant map.old ≤ free_count pool.old }
    requires sound { IsSound S.Cell.lattice (S.machine system.now) (rows_in pool.old map.old) }
    requires entry { HasEntry S.Cell.lattice (S.machine system.now) (rows_in pool.old map.old) }
    requires marked { IsMarked S.Cell.lattice (S.machine system.now) (state_in pool.old map.old) }
    ensures changed { Changed pool.old map.old spare.now.index pool.new map.new }
    ensures sound { IsSound S.Cell.lattice (S.machine system.now) (rows_in pool.new map.new) }
    ensures entry { HasEntry S.Cell.lattice (S.machine system.now) (rows_in pool.new map.new) }
    ensures marked { IsMarked S.Cell.lattice (S.machine system.now) (state_in pool.new map.new) }
    ensures falls { potential (S.machine system.now) (rows_in pool.new map.new) + (if result then 1 else 0) ≤ potential (S.machine system.now) (rows_in pool.old map.old) }
    ensures inductive { result ≡ false → IsInductive S.Cell.lattice (S.machine system.now) (rows_in pool.new map.new) }
    ensures steps { steps.new ≤ steps.old + (S.machine system.now).edges }
{
    let mut grew = false;
    let mut following = false;
    for edge in 0..system.edges() {
        following = enter(system, map, edge, following);
        grew |= follow_if(following, system, pool, map, edge, spare, steps);
    }
    grew
}
