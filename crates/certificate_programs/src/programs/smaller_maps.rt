//! A map that is smaller than a closed one, by whose rows operands may lie within their types.
ghost use Rattle.std.specs.Prelude.{◌≡◌, ℕ, None, Some, true, IfOk};
ghost use Rattle.fixpoint.specs.Pool.Pool.{IsTaken};
ghost use Rattle.fixpoint.specs.Solver.RowMap.{rows_in, slot_index, IsHeld};
ghost use Rattle.interval_domain.specs.Intervals.IntervalLattice.{interval_lattice};
ghost use Rattle.interval_domain.specs.Intervals.IntervalNumbers.{interval_numbers};
ghost use Rattle.diagnose.specs.Operands.TypedRows.{is_typed_map};

use crate::types::{Kinds, cut_row, temp_kinds};
use cc_base::Memory;
use certificate_text::maps::write_cert;
use cfg::Flow;
use diagnose::operands::is_typed_map;
use fixpoint::pool::{Row, RowPool};
use interval_domain::intervals::Interval;
use std::alloc::Global;
use value_domain::values::Cell;

/// Cuts the row that a block has by the map.
fn cut_entry(
    flow: &Flow,
    all: &[Kinds],
    block: usize,
    pool: &mut RowPool<Cell<Interval>>,
    slot: &Option<Row>,
)
    requires { (s : ℕ) → slot_index slot.now ≡ Some s → IsTaken pool.old s }
    ensures { pool.new.taken ≡ pool.old.taken }
{
    match slot {
        None => {}
        Some(row) => cut_row(flow, all, block, pool.row_mut(row)),
    }
}

/// Cuts the rows that the blocks have.
#[tactic(auto, using(crate::proofs::programs::HeldMaps::held_same))]
fn cut_entries(flow: &Flow, all: &[Kinds], pool: &mut RowPool<Cell<Interval>>, map: &[Option<Row>])
    requires { IsHeld pool.old map.now }
    ensures { IsHeld pool.new map.now }
{
    for block in 0..map.len() {
        cut_entry(flow, all, block, pool, &map[block]);
    }
}

/// Cuts the rows of a map to the types of what they hold. The map keeps its rows.
fn narrow(
    alloc: Global,
    flow: &Flow,
    pool: &mut RowPool<Cell<Interval>>,
    map: &[Option<Row>],
) -> Result<(), Memory>
    requires { IsHeld pool.old map.now }
    ensures { IsHeld pool.new map.now }
{
    let all = temp_kinds(alloc, flow)?;
    cut_entries(flow, all.as_slice(), pool, map);
    Ok(())
}

/// The text of a smaller map, where operands do not lie within their types by the rows of a map; those
/// rows are then cut. None where they do.
///
/// # Errors
///
/// Out of memory.
pub fn smaller_text(
    alloc: Global,
    flow: &Flow,
    pool: &mut RowPool<Cell<Interval>>,
    map: &[Option<Row>],
) -> Result<Option<Vec<u8>>, Memory>
    requires { IsHeld pool.old map.now }
    ensures typed { IfOk result (λ smaller. smaller ≡ None → is_typed_map interval_lattice interval_numbers flow.now (rows_in pool.old map.now) ≡ true) }
    ensures kept { IfOk result (λ smaller. is_typed_map interval_lattice interval_numbers flow.now (rows_in pool.old map.now) ≡ true → smaller ≡ None) }
    ensures held { IsHeld pool.new map.now }
{
    if is_typed_map(alloc, flow, pool, map)? {
        return Ok(None);
    }
    narrow(alloc, flow, pool, map)?;
    let text = write_cert(alloc, flow, pool, map)?;
    Ok(Some(text))
}
