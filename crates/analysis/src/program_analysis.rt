//! The rules that a program may break.
ghost use Rattle.std.specs.Prelude.{◌≡◌, ◌+◌, ◌<◌, ◌≤◌, true, length, None, IfOk};
ghost use Rattle.std.proofs.Common.{replicate};
ghost use Rattle.cc_base.specs.DiagnosticOrder.{IsOrderedSet};
ghost use Rattle.fixpoint.specs.Pool.Pool.{free_count};
ghost use Rattle.fixpoint.specs.Solver.RowMap.{rows_in, IsHeld};
ghost use Rattle.diagnose.specs.Operands.TypedRows.{is_typed_map};
ghost use Rattle.interval_domain.specs.Intervals.IntervalLattice.{interval_lattice};
ghost use Rattle.interval_domain.specs.Intervals.IntervalNumbers.{interval_numbers};
ghost use Rattle.transfer_system.specs.System.SystemChecks.{is_system};
ghost use Rattle.transfer_system.specs.System.FlowMachines.{has_start};
ghost use Rattle.transfer_system.specs.System.RegularPrograms.{is_regular};
ghost use Rattle.analysis.specs.Analyses.{admitted_pairs, IsAnalysis};
ghost use Rattle.analysis.specs.CheckedPrograms.{IsChecked};
ghost use Rattle.analysis.specs.StepBounds.{most_edges};

use crate::checked_programs::see_checked;
use crate::regular_programs::is_regular;
use cc_base::{Diag, Lattice, Memory, Steps, System, Thresholds};
use cfg::Flow;
use diagnose::diagnostics::diagnose;
use diagnose::operands::is_typed_map;
use fixpoint::pool::{Row, RowPool};
use fixpoint::solver::{drop_map, new_map, release, solve};
use interval_domain::intervals::Interval;
use std::alloc::Global;
use std::marker::Brand;
use std::sync::ledger::{Blank, Ledger};
use transfer_system::system::{FlowSystem, has_start, is_system, system};
use value_domain::values::Cell;

/// The pairs that a map admits by whose rows operands lie within their types. No other map of a program
/// is known to come.
fn typed_pairs(
    alloc: Global,
    flow: &Flow,
    pool: &RowPool<Cell<Interval>>,
    map: &[Option<Row>],
) -> Result<Vec<Diag>, Memory>
    requires { IsHeld pool.now map.now }
    ensures typed { IfOk result (λ _. is_typed_map interval_lattice interval_numbers flow.now (rows_in pool.now map.now) ≡ true) }
    ensures pairs { IfOk result (λ found. IsOrderedSet (admitted_pairs flow.now (rows_in pool.now map.now)) found.items) }
{
    if is_typed_map(alloc, flow, pool, map)? {
        diagnose(alloc, flow, pool, map)
    } else {
        Err(Memory)
    }
}

/// Fills the map, which holds no row, finds the pairs that it admits, and gives its rows back.
fn found_by<L: Ledger>(
    alloc: Global,
    flow: &Flow,
    list: &Thresholds,
    pool: &mut RowPool<Cell<Interval>>,
    map: &mut [Option<Row>],
    steps: &mut Steps<L>,
) -> Result<Vec<Diag>, Memory>
    requires valid { is_system flow.now ≡ true }
    requires started { has_start interval_lattice interval_numbers flow.now ≡ true }
    requires regular { is_regular flow.now list.now ≡ true }
    requires checked { IsChecked flow.now list.now }
    requires width { pool.old.width ≡ flow.now.width }
    requires vacant { map.old ≡ replicate (length flow.now.blocks.items) None }
    requires room { length flow.now.blocks.items + 2 ≤ free_count pool.old }
    ensures vacant { map.new ≡ replicate (length map.old) None }
    ensures followed { steps.new ≤ steps.old + most_edges flow.now (length list.now) }
    ensures found { IfOk result (λ found. IsAnalysis flow.now list.now found.items) }
{
    let equations: FlowSystem<Interval> = system(flow, list);
    solve(&equations, pool, map, steps);
    let found = typed_pairs(alloc, flow, pool, map);
    release(pool, map);
    found
}

/// Whether each static initializer of a program has its place.
fn starts(alloc: Global, flow: &Flow) -> Result<bool, Memory>
    ensures { IfOk result (λ held. held ≡ has_start interval_lattice interval_numbers flow.now) }
{
    let mut row = vec![in alloc; Cell::<Interval>::bottom(); flow.width as usize]?;
    Ok(has_start(flow, row.as_mut_slice()))
}

/// The pairs that a program may break whose blocks and edges make a system and whose static
/// initializers have their places, where it is regular and as soundness asks.
#[tactic(auto, using(crate::specs::Counts::few_blocks))]
fn found_in<L: Ledger>(
    alloc: Global,
    flow: &Flow,
    list: &Thresholds,
    steps: &mut Steps<L>,
) -> Result<Vec<Diag>, Memory>
    requires valid { is_system flow.now ≡ true }
    requires started { has_start interval_lattice interval_numbers flow.now ≡ true }
    requires regular { is_regular flow.now list.now ≡ true }
    requires checked { IsChecked flow.now list.now }
    ensures followed { steps.new ≤ steps.old + most_edges flow.now (length list.now) }
    ensures found { IfOk result (λ found. IsAnalysis flow.now list.now found.items) }
{
    let blocks = flow.blocks.len() as u32;
    let mut pool = RowPool::new(alloc, blocks + 2, flow.width, Cell::bottom())?;
    let mut map = new_map(alloc, blocks)?;
    let found = found_by(alloc, flow, list, &mut pool, map.as_mut_slice(), steps);
    drop_map(map);
    found
}

/// `analyse`, with its steps counted: each edge of the program that is followed is one. There are no
/// more than the program's edges, cells, bases and heads and the length of the list call for.
///
/// # Errors
///
/// Those of `analyse`.
pub fn analyse_counted<L: Ledger>(
    alloc: Global,
    flow: &Flow,
    list: &Thresholds,
    steps: &mut Steps<L>,
) -> Result<Vec<Diag>, Memory>
    ensures followed { steps.new ≤ steps.old + most_edges flow.now (length list.now) }
    ensures found { IfOk result (λ found. IsAnalysis flow.now list.now found.items) }
{
    if is_system(flow) && (starts(alloc, flow)? && is_regular(alloc, flow, list)?) {
        see_checked(alloc, flow, list)?;
        found_in(alloc, flow, list, steps)
    } else {
        Err(Memory)
    }
}

/// The analysis with a counter of its own.
fn analysed_from<L: Ledger>(
    alloc: Global,
    flow: &Flow,
    list: &Thresholds,
    blank: Blank,
) -> Result<Vec<Diag>, Memory>
    requires name { blank.name ≡ L.name }
    requires parts { blank.parts ≡ L.parts }
    requires some { 0 < blank.parts }
    ensures { IfOk result (λ found. IsAnalysis flow.now list.now found.items) }
{
    let mut steps = Steps::<L>::start(blank);
    analyse_counted(alloc, flow, list, &mut steps)
}

/// The pairs of place and rule that the program may break: just those that an inductive map of its
/// system admits, the least one where the system is monotone, with intervals whose bounds are rounded to
/// the numbers of a list at heads; in order of places and then of rules, each once.
///
/// # Errors
///
/// Out of memory, to which come a program that is not well formed within the limits of the product, or
/// whose blocks and edges make no system; one with a static initializer that has no place, a text of
/// other characters than bytes, a test that names an object without a leaf, or a struct whose members
/// do not stand one behind the other; one that has not what soundness asks (`see_checked`), or whose
/// operands do not lie within their types; and a list that does not go from a number from -2^64 to 0 up
/// to 2^64, or has no 0.
pub fn analyse(alloc: Global, flow: &Flow, list: &Thresholds) -> Result<Vec<Diag>, Memory>
    ensures found { IfOk result (λ found. IsAnalysis flow.now list.now found.items) }
{
    analysed_from::<Brand>(alloc, flow, list, Blank::new(1))
}
