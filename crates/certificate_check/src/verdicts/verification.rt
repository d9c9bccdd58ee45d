//! The check of a certificate.
ghost use Rattle.std.specs.Prelude.{◌≡◌, ◌+◌, ◌<◌, ◌≤◌, ℕ, true, false, length, None, Some, Ok, IfOk, count_by};
ghost use Rattle.std.proofs.Common.{replicate};
ghost use Rattle.cc_base.specs.InductiveMap.{row_at, IsOwn};
ghost use Rattle.fixpoint.specs.Pool.Pool.{row_of, with_taken, IsTaken, IsFree, IsWhole, free_count};
ghost use Rattle.fixpoint.specs.Solver.RowMap.{rows_in, index_at, is_held, IsHeld};
ghost use Rattle.transfer_system.specs.System.SystemChecks.{is_system};
ghost use Rattle.certificate_check.specs.ClosedMaps.MapFaults.{IsFirstFault};
ghost use Rattle.certificate_check.specs.Reading.GreatestRows.{cert_numbers, greatest_row};
ghost use Rattle.certificate_check.specs.Reading.MapReading.{map_rows, map_reading, is_whole};
ghost use Rattle.certificate_check.specs.Reading.FilledMaps.{Filled};
ghost use Rattle.certificate_check.specs.Verdicts.Verdicts.{cert_cells, cert_machine, is_yes, IsVerdictOn};
ghost use Rattle.certificate_check.specs.Verdicts.KeptPools.{Kept};

use crate::closed_maps::{MapFault, first_fault};
use crate::reading::{cert_list, greatest_row, is_whole, line_number, read_map};
use crate::verdicts::verdicts::{CertFault, Verdict, fault_of, is_yes};
use cc_base::{Lattice, Memory, Steps, Thresholds};
use cfg::Flow;
use fixpoint::pool::{Row, RowPool};
use fixpoint::solver::release;
use interval_domain::intervals::Interval;
use std::alloc::Global;
use std::marker::Brand;
use std::sync::ledger::{Blank, Ledger};
use transfer_system::system::{FlowSystem, system};
use value_domain::values::Cell;

/// A row of a pool that has one.
fn take_row(pool: &mut RowPool<Cell<Interval>>) -> Row
    requires { 0 < free_count pool.old }
    ensures free { IsFree pool.old result.index }
    ensures taken { pool.new ≡ with_taken pool.old result.index }
    ensures whole { IsWhole pool.new }
    ensures in_use { IsTaken pool.new result.index }
    ensures others { (s : ℕ) → IsTaken pool.old s → IsTaken pool.new s }
    ensures kept { (s : ℕ) → IsTaken pool.old s → row_of pool.new s ≡ row_of pool.old s }
    ensures count { free_count pool.new + 1 ≡ free_count pool.old }
{
    match pool.take() {
        Some(row) => row,
        None => unreachable!(),
    }
}

/// What keeps a map of own rows from being closed, if anything does.
fn fault_in<L: Ledger>(
    flow: &Flow,
    list: &Thresholds,
    pool: &mut RowPool<Cell<Interval>>,
    map: &[Option<Row>],
    steps: &mut Steps<L>,
) -> Option<MapFault>
    requires valid { is_system flow.now ≡ true }
    requires list { list.now ≡ cert_numbers }
    requires width { pool.old.width ≡ flow.now.width }
    requires size { length map.now ≡ length flow.now.blocks.items }
    requires held { IsHeld pool.old map.now }
    requires room { 0 < free_count pool.old }
    requires own { (b : ℕ) → IsOwn (cert_machine flow.now) (row_at (rows_in pool.old map.now) b) }
    ensures kept { Kept pool.old pool.new }
    ensures fault { IsFirstFault cert_cells (cert_machine flow.now) (rows_in pool.old map.now) result }
{
    let equations: FlowSystem<Interval> = system(flow, list);
    let spare = take_row(pool);
    let fault = first_fault(&equations, pool, map, &spare, steps);
    pool.give(spare);
    let _width = pool.width();
    fault
}

/// The verdict on a text, whose rows are put into the map.
fn judge<L: Ledger>(
    alloc: Global,
    flow: &Flow,
    cert: &[u8],
    pool: &mut RowPool<Cell<Interval>>,
    map: &mut [Option<Row>],
    steps: &mut Steps<L>,
) -> Result<Verdict, Memory>
    requires valid { is_system flow.now ≡ true }
    requires width { pool.old.width ≡ flow.now.width }
    requires vacant { map.old ≡ replicate (length flow.now.blocks.items) None }
    requires whole { IsWhole pool.old }
    requires room { length flow.now.blocks.items + 2 ≤ free_count pool.old }
    ensures filled { Filled pool.old pool.new map.new (length map.old) }
    ensures verdict { IfOk result (λ v. IsVerdictOn flow.now cert.now v) }
    ensures rows { is_yes result ≡ true → rows_in pool.new map.new ≡ map_rows flow.now cert.now }
{
    let list = cert_list(alloc)?;
    let greatest = greatest_row(alloc, flow, &list)?;
    let mut row = vec![in alloc; Cell::<Interval>::bottom(); flow.width as usize]?;
    let reading = read_map(
        alloc,
        flow,
        greatest.as_slice(),
        cert,
        row.as_mut_slice(),
        pool,
        map,
    )?;
    if !is_whole(cert, reading) {
        return Ok(Verdict::No(CertFault::Form(line_number(cert, reading.at))));
    }
    match fault_in(flow, &list, pool, map, steps) {
        None => Ok(Verdict::Yes),
        Some(fault) => Ok(Verdict::No(fault_of(fault))),
    }
}

/// Gives the rows of the map back, unless the answer is yes.
fn settle(
    pool: &mut RowPool<Cell<Interval>>,
    map: &mut [Option<Row>],
    answer: Result<Verdict, Memory>,
) -> Result<Verdict, Memory>
    requires { IsHeld pool.old map.old }
    ensures answer { result ≡ answer }
    ensures yes { is_yes answer ≡ true → (pool.new ≡ pool.old) × (map.new ≡ map.old) }
    ensures vacant { is_yes answer ≡ false → map.new ≡ replicate (length map.old) None }
    ensures held { IsHeld pool.new map.new }
    ensures room { free_count pool.new + count_by is_held map.new ≡ free_count pool.old + count_by is_held map.old }
    ensures width { pool.new.width ≡ pool.old.width }
    ensures others { (s : ℕ) → IsTaken pool.old s → ((b : ℕ) → index_at map.old b ≡ Some s → ⊥) → IsTaken pool.new s × (row_of pool.new s ≡ row_of pool.old s) × ((b : ℕ) → index_at map.new b ≡ Some s → ⊥) }
{
    if is_yes(&answer) {
        return answer;
    }
    release(pool, map);
    answer
}

/// `verify`, with a counter of its own for the edges that are followed.
fn verify_counted<L: Ledger>(
    alloc: Global,
    flow: &Flow,
    cert: &[u8],
    pool: &mut RowPool<Cell<Interval>>,
    map: &mut [Option<Row>],
    blank: Blank,
) -> Result<Verdict, Memory>
    requires name { blank.name ≡ L.name }
    requires parts { blank.parts ≡ L.parts }
    requires some { 0 < blank.parts }
    requires valid { is_system flow.now ≡ true }
    requires width { pool.old.width ≡ flow.now.width }
    requires vacant { map.old ≡ replicate (length flow.now.blocks.items) None }
    requires room { length flow.now.blocks.items + 2 ≤ free_count pool.old }
    ensures verdict { IfOk result (λ v. IsVerdictOn flow.now cert.now v) }
    ensures rows { is_yes result ≡ true → rows_in pool.new map.new ≡ map_rows flow.now cert.now }
    ensures vacant { is_yes result ≡ false → map.new ≡ replicate (length map.old) None }
    ensures held { IsHeld pool.new map.new }
    ensures room { free_count pool.new + count_by is_held map.new ≡ free_count pool.old }
    ensures width { pool.new.width ≡ pool.old.width }
    ensures others { (s : ℕ) → IsTaken pool.old s → IsTaken pool.new s × (row_of pool.new s ≡ row_of pool.old s) × ((b : ℕ) → index_at map.new b ≡ Some s → ⊥) }
{
    let mut steps = Steps::<L>::start(blank);
    let _width = pool.width();
    let answer = judge(alloc, flow, cert, pool, map, &mut steps);
    settle(pool, map, answer)
}

/// Whether a text is that of a closed map of the program: of own rows, with the start row at or below
/// the entry's, and with each edge leading to a row at or below its target's. It is told without a
/// solver. If it is one, the map has its rows; else each entry of the map is None, and all rows that
/// were taken are free again.
///
/// The pool has the program's width, and at least two rows more are free than there are blocks. The
/// map has a None for each block. Rows in use are as before.
///
/// # Errors
///
/// Want of memory.
pub fn verify(
    alloc: Global,
    flow: &Flow,
    cert: &[u8],
    pool: &mut RowPool<Cell<Interval>>,
    map: &mut [Option<Row>],
) -> Result<Verdict, Memory>
    requires valid { is_system flow.now ≡ true }
    requires width { pool.old.width ≡ flow.now.width }
    requires vacant { map.old ≡ replicate (length flow.now.blocks.items) None }
    requires room { length flow.now.blocks.items + 2 ≤ free_count pool.old }
    ensures verdict { IfOk result (λ v. IsVerdictOn flow.now cert.now v) }
    ensures rows { is_yes result ≡ true → rows_in pool.new map.new ≡ map_rows flow.now cert.now }
    ensures vacant { is_yes result ≡ false → map.new ≡ replicate (length map.old) None }
    ensures held { IsHeld pool.new map.new }
    ensures room { free_count pool.new + count_by is_held map.new ≡ free_count pool.old }
    ensures width { pool.new.width ≡ pool.old.width }
    ensures others { (s : ℕ) → IsTaken pool.old s → IsTaken pool.new s × (row_of pool.new s ≡ row_of pool.old s) × ((b : ℕ) → index_at map.new b ≡ Some s → ⊥) }
{
    verify_counted::<Brand>(alloc, flow, cert, pool, map, Blank::new(1))
}
