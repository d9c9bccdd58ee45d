//! Whether a map is closed.
ghost use Rattle.std.specs.Prelude.{◌≡◌, ◌≢◌, ◌+◌, ◌<◌, ◌≤◌, ℕ, true, false, length, None, Some, MatchOption, slice_index_or};
ghost use Rattle.cc_base.specs.Rows.{row_leq, reached_leq};
ghost use Rattle.cc_base.specs.InductiveMap.{row_at, step, IsOwn};
ghost use Rattle.fixpoint.specs.Pool.Pool.{row_of, IsTaken, IsWhole, SameBut};
ghost use Rattle.fixpoint.specs.Solver.RowMap.{slot_row, slot_index, rows_in, IsHeldBeside};
ghost use Rattle.certificate_check.specs.ClosedMaps.MapFaults.{starts_below, edge_closed, EdgesClosed, IsFirstFault};

use cc_base::{Lattice, Steps, System};
use fixpoint::pool::{Row, RowPool};
use std::sync::ledger::Ledger;

/// What keeps a map from being closed.
#[derive(Clone, Copy)]
pub enum MapFault {
    /// The entry is not reached, or its row is not at or above the start row.
    Start,
    /// The first edge that leads to a row that is not at or below its target's.
    Edge(u32),
}

/// Whether each cell of a row is at or below the cell at its place of another one.
fn row_leq<C: Lattice>(row: &[C], other: &[C]) -> bool
    requires { length row.now ≡ length other.now }
    ensures { result ≡ row_leq C.lattice row.now other.now }
{
    for at in 0..row.len() {
        if !row[at].leq(other[at]) {
            return false;
        }
    }
    true
}

/// Whether a row of the pool is at or below an entry of a map.
fn is_below<C: Lattice>(pool: &RowPool<C>, row: &Row, slot: &Option<Row>) -> bool
    requires row { IsTaken pool.now row.now.index }
    requires slot { (i : ℕ) → slot_index slot.now ≡ Some i → IsTaken pool.now i }
    ensures { result ≡ reached_leq C.lattice (Some (row_of pool.now row.now.index)) (slot_row pool.now slot.now) }
{
    let _width = pool.width();
    match slot {
        None => false,
        Some(other) => row_leq(pool.row(row), pool.row(other)),
    }
}

/// Makes of the row of a block the one behind an edge, in the spare row. False where the edge is not
/// taken.
fn pass<S: System, L: Ledger>(
    system: &S,
    pool: &mut RowPool<S::Cell>,
    row: &Row,
    edge: u32,
    spare: &Row,
    steps: &mut Steps<L>,
) -> bool
    requires valid { S.valid system.now }
    requires edge { edge < (S.machine system.now).edges }
    requires whole { IsWhole pool.old }
    requires spare { IsTaken pool.old spare.now.index }
    requires taken { IsTaken pool.old row.now.index }
    requires own { (S.machine system.now).own (row_of pool.old row.now.index) ≡ true }
    ensures same_but { SameBut pool.old pool.new spare.now.index }
    ensures reached { result ≡ true → (S.machine system.now).through edge (row_of pool.old row.now.index) ≡ Some (row_of pool.new spare.now.index) }
    ensures unreached { result ≡ false → (S.machine system.now).through edge (row_of pool.old row.now.index) ≡ None }
{
    pool.copy(row, spare);
    system.flow(edge, pool.row_mut(spare), steps)
}

/// The same for an entry of a map.
fn pass_any<S: System, L: Ledger>(
    system: &S,
    pool: &mut RowPool<S::Cell>,
    slot: &Option<Row>,
    edge: u32,
    spare: &Row,
    steps: &mut Steps<L>,
) -> bool
    requires valid { S.valid system.now }
    requires edge { edge < (S.machine system.now).edges }
    requires whole { IsWhole pool.old }
    requires spare { IsTaken pool.old spare.now.index }
    requires taken { (i : ℕ) → slot_index slot.now ≡ Some i → IsTaken pool.old i }
    requires own { IsOwn (S.machine system.now) (slot_row pool.old slot.now) }
    ensures same_but { SameBut pool.old pool.new spare.now.index }
    ensures reached { result ≡ true → step (S.machine system.now) edge (slot_row pool.old slot.now) ≡ Some (row_of pool.new spare.now.index) }
    ensures unreached { result ≡ false → step (S.machine system.now) edge (slot_row pool.old slot.now) ≡ None }
{
    match slot {
        Some(row) => pass(system, pool, row, edge, spare, steps),
        None => false,
    }
}

/// Whether the row of the entry is at or above the start row.
fn starts_below<S: System>(
    system: &S,
    pool: &mut RowPool<S::Cell>,
    map: &[Option<Row>],
    spare: &Row,
) -> bool
    requires valid { S.valid system.now }
    requires width { pool.old.width ≡ (S.machine system.now).width }
    requires size { length map.now ≡ (S.machine system.now).blocks }
    requires held { IsHeldBeside pool.old map.now spare.now.index }
    ensures same_but { SameBut pool.old pool.new spare.now.index }
    ensures below { result ≡ starts_below S.Cell.lattice (S.machine system.now) (rows_in pool.old map.now) }
{
    system.start(pool.row_mut(spare));
    is_below(pool, spare, &map[0])
}

/// Whether an edge makes of its source's row one at or below its target's.
fn edge_closed<S: System, L: Ledger>(
    system: &S,
    pool: &mut RowPool<S::Cell>,
    map: &[Option<Row>],
    edge: u32,
    spare: &Row,
    steps: &mut Steps<L>,
) -> bool
    requires valid { S.valid system.now }
    requires edge { edge < (S.machine system.now).edges }
    requires size { length map.now ≡ (S.machine system.now).blocks }
    requires held { IsHeldBeside pool.old map.now spare.now.index }
    requires own { (b : ℕ) → IsOwn (S.machine system.now) (row_at (rows_in pool.old map.now) b) }
    ensures same_but { SameBut pool.old pool.new spare.now.index }
    ensures closed { result ≡ edge_closed S.Cell.lattice (S.machine system.now) (rows_in pool.old map.now) edge }
{
    let from = system.edge_from(edge) as usize;
    let to = system.edge_to(edge) as usize;
    if pass_any(system, pool, &map[from], edge, spare, steps) {
        is_below(pool, spare, &map[to])
    } else {
        true
    }
}

/// The first edge that is not closed.
fn open_edge<S: System, L: Ledger>(
    system: &S,
    pool: &mut RowPool<S::Cell>,
    map: &[Option<Row>],
    spare: &Row,
    steps: &mut Steps<L>,
) -> Option<u32>
    requires valid { S.valid system.now }
    requires size { length map.now ≡ (S.machine system.now).blocks }
    requires held { IsHeldBeside pool.old map.now spare.now.index }
    requires own { (b : ℕ) → IsOwn (S.machine system.now) (row_at (rows_in pool.old map.now) b) }
    ensures same_but { SameBut pool.old pool.new spare.now.index }
    ensures none { result ≡ None → EdgesClosed S.Cell.lattice (S.machine system.now) (rows_in pool.old map.now) (S.machine system.now).edges }
    ensures first { (e : ℕ) → result ≡ Some e → (e < (S.machine system.now).edges) × (edge_closed S.Cell.lattice (S.machine system.now) (rows_in pool.old map.now) e ≡ false) × EdgesClosed S.Cell.lattice (S.machine system.now) (rows_in pool.old map.now) e }
{
    for edge in 0..system.edges() {
        if !edge_closed(system, pool, map, edge, spare, steps) {
            return Some(edge);
        }
    }
    None
}

/// What keeps a map of own rows from being closed, if anything does: the start, or else the first edge
/// that is not closed. A spare row of the pool is written over, and no other one.
pub fn first_fault<S: System, L: Ledger>(
    system: &S,
    pool: &mut RowPool<S::Cell>,
    map: &[Option<Row>],
    spare: &Row,
    steps: &mut Steps<L>,
) -> Option<MapFault>
    requires valid { S.valid system.now }
    requires width { pool.old.width ≡ (S.machine system.now).width }
    requires size { length map.now ≡ (S.machine system.now).blocks }
    requires held { IsHeldBeside pool.old map.now spare.now.index }
    requires own { (b : ℕ) → IsOwn (S.machine system.now) (row_at (rows_in pool.old map.now) b) }
    ensures same_but { SameBut pool.old pool.new spare.now.index }
    ensures fault { IsFirstFault S.Cell.lattice (S.machine system.now) (rows_in pool.old map.now) result }
{
    if !starts_below(system, pool, map, spare) {
        return Some(MapFault::Start);
    }
    match open_edge(system, pool, map, spare, steps) {
        None => None,
        Some(edge) => Some(MapFault::Edge(edge)),
    }
}
