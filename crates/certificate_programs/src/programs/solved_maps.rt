//! The text of the map that the solver finds.
ghost use Rattle.std.specs.Prelude.{◌≡◌, ◌+◌, ◌<◌, ◌≤◌, true, length, None, IfOk};
ghost use Rattle.std.proofs.Common.{replicate};
ghost use Rattle.fixpoint.specs.Pool.Pool.{free_count};
ghost use Rattle.fixpoint.specs.Solver.RowMap.{rows_in, IsHeld};
ghost use Rattle.interval_domain.specs.Intervals.IntervalLattice.{interval_lattice};
ghost use Rattle.interval_domain.specs.Intervals.IntervalNumbers.{interval_numbers};
ghost use Rattle.transfer_system.specs.System.SystemChecks.{is_system};
ghost use Rattle.transfer_system.specs.System.FlowMachines.{has_start};
ghost use Rattle.transfer_system.specs.System.RegularPrograms.{is_regular};
ghost use Rattle.diagnose.specs.Operands.TypedRows.{is_typed_map};
ghost use Rattle.analysis.specs.CheckedPrograms.{IsChecked};
ghost use Rattle.certificate_text.specs.Maps.MapTexts.{text_of_map};
ghost use Rattle.certificate_programs.specs.Programs.Certificates.{IsCertificate};

use analysis::{is_regular, see_checked};
use cc_base::{Lattice, Memory, Steps, Thresholds};
use certificate_text::maps::write_cert;
use cfg::Flow;
use diagnose::operands::is_typed_map;
use fixpoint::pool::{Row, RowPool};
use fixpoint::solver::{drop_map, new_map, release, solve};
use interval_domain::intervals::Interval;
use std::alloc::Global;
use std::marker::Brand;
use std::sync::ledger::{Blank, Ledger};
use transfer_system::system::{FlowSystem, has_start, is_system, system};
use value_domain::values::Cell;

/// The text of a map by whose rows operands lie within their types. No other map of a program is known
/// to come.
fn typed_text(
    alloc: Global,
    flow: &Flow,
    pool: &RowPool<Cell<Interval>>,
    map: &[Option<Row>],
) -> Result<Vec<u8>, Memory>
    requires { IsHeld pool.now map.now }
    ensures typed { IfOk result (λ _. is_typed_map interval_lattice interval_numbers flow.now (rows_in pool.now map.now) ≡ true) }
    ensures text { IfOk result (λ text. text.items ≡ text_of_map flow.now (rows_in pool.now map.now)) }
{
    if is_typed_map(alloc, flow, pool, map)? {
        write_cert(alloc, flow, pool, map)
    } else {
        Err(Memory)
    }
}

/// Fills the map, which holds no row, writes its text, and gives its rows back.
fn text_by<L: Ledger>(
    alloc: Global,
    flow: &Flow,
    list: &Thresholds,
    pool: &mut RowPool<Cell<Interval>>,
    map: &mut [Option<Row>],
    steps: &mut Steps<L>,
) -> Result<Vec<u8>, Memory>
    requires valid { is_system flow.now ≡ true }
    requires started { has_start interval_lattice interval_numbers flow.now ≡ true }
    requires regular { is_regular flow.now list.now ≡ true }
    requires checked { IsChecked flow.now list.now }
    requires width { pool.old.width ≡ flow.now.width }
    requires vacant { map.old ≡ replicate (length flow.now.blocks.items) None }
    requires room { length flow.now.blocks.items + 2 ≤ free_count pool.old }
    ensures vacant { map.new ≡ replicate (length map.old) None }
    ensures text { IfOk result (λ text. IsCertificate flow.now list.now text.items) }
{
    let equations: FlowSystem<Interval> = system(flow, list);
    solve(&equations, pool, map, steps);
    let text = typed_text(alloc, flow, pool, map);
    release(pool, map);
    text
}

/// Whether each static initializer of a program has its place.
pub fn starts(alloc: Global, flow: &Flow) -> Result<bool, Memory>
    ensures { IfOk result (λ held. held ≡ has_start interval_lattice interval_numbers flow.now) }
{
    let mut row = vec![in alloc; Cell::<Interval>::bottom(); flow.width as usize]?;
    Ok(has_start(flow, row.as_mut_slice()))
}

/// The text for a program whose blocks and edges make a system and whose static initializers have
/// their places, where it is regular and as soundness asks.
#[tactic(auto, using(analysis::specs::Counts::few_blocks))]
fn text_in<L: Ledger>(
    alloc: Global,
    flow: &Flow,
    list: &Thresholds,
    blank: Blank,
) -> Result<Vec<u8>, Memory>
    requires name { blank.name ≡ L.name }
    requires parts { blank.parts ≡ L.parts }
    requires some { 0 < blank.parts }
    requires valid { is_system flow.now ≡ true }
    requires started { has_start interval_lattice interval_numbers flow.now ≡ true }
    requires regular { is_regular flow.now list.now ≡ true }
    requires checked { IsChecked flow.now list.now }
    ensures { IfOk result (λ text. IsCertificate flow.now list.now text.items) }
{
    let mut steps = Steps::<L>::start(blank);
    let blocks = flow.blocks.len() as u32;
    let mut pool = RowPool::new(alloc, blocks + 2, flow.width, Cell::bottom())?;
    let mut map = new_map(alloc, blocks)?;
    let text = text_by(alloc, flow, list, &mut pool, map.as_mut_slice(), &mut steps);
    drop_map(map);
    text
}

/// The text of the least inductive map of a program, with intervals whose bounds are rounded to the
/// numbers of a list at heads. The program and the map are looked at as in an analysis.
///
/// # Errors
///
/// Out of memory, to which the programs and lists come to which an analysis answers so.
pub fn prove_program(alloc: Global, flow: &Flow, list: &Thresholds) -> Result<Vec<u8>, Memory>
    ensures { IfOk result (λ text. IsCertificate flow.now list.now text.items) }
{
    if is_system(flow) && (starts(alloc, flow)? && is_regular(alloc, flow, list)?) {
        see_checked(alloc, flow, list)?;
        text_in::<Brand>(alloc, flow, list, Blank::new(1))
    } else {
        Err(Memory)
    }
}
