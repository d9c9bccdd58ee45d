//! The rules that a program may break, over a map of its rows.
ghost use Rattle.std.specs.Prelude.{◌≡◌, ◌++◌, ℕ, Some, IfOk};
ghost use Rattle.cc_base.specs.DiagnosticOrder.{IsOrderedSet};
ghost use Rattle.fixpoint.specs.Pool.Pool.{row_of, IsTaken};
ghost use Rattle.fixpoint.specs.Solver.RowMap.{IsHeld, slot_index, slot_row, rows_in};
ghost use Rattle.diagnose.specs.Diagnostics.AdmittedRules.{entry_pairs, map_pairs};

use crate::diagnostics::block_diagnoses::diagnose_block;
use cc_base::{Diag, IntDomain, Memory, ordered_diagnostics};
use cfg::Flow;
use fixpoint::pool::{Row, RowPool};
use std::alloc::{AllocError, Global};
use value_domain::values::Cell;

/// Makes `spent` the row of the pool, which may then be written.
fn copy_row<I: IntDomain>(
    spent: &mut Vec<Cell<I>>,
    pool: &RowPool<Cell<I>>,
    row: &Row,
) -> Result<(), AllocError>
    requires { IsTaken pool.now row.now.index }
    ensures { IfOk result (λ _. spent.new.items ≡ row_of pool.now row.now.index) }
{
    spent.clear();
    spent.extend_from_slice(pool.row(row))
}

/// Adds what the instructions of a block may break from the row that it has by the map, of which
/// `spent` becomes a copy.
fn diagnose_entry<I: IntDomain>(
    out: &mut Vec<Diag>,
    spent: &mut Vec<Cell<I>>,
    flow: &Flow,
    pool: &RowPool<Cell<I>>,
    slot: &Option<Row>,
    block: usize,
) -> Result<(), AllocError>
    requires { (s : ℕ) → slot_index slot.now ≡ Some s → IsTaken pool.now s }
    ensures { IfOk result (λ _. out.new.items ≡ out.old.items ++ entry_pairs I.lattice I.numbers flow.now block (slot_row pool.now slot.now)) }
{
    match slot {
        None => Ok(()),
        Some(row) => {
            let number = u32::try_from(block).ok().ok_or(AllocError)?;
            copy_row(spent, pool, row)?;
            diagnose_block(out, flow, spent.as_mut_slice(), number)
        }
    }
}

/// The pairs of place and rule that the map admits, block by block.
#[tactic(auto, unfolding(crate::specs::Diagnostics::AdmittedRules::map_pairs))]
fn diagnose_map<I: IntDomain>(
    alloc: Global,
    flow: &Flow,
    pool: &RowPool<Cell<I>>,
    map: &[Option<Row>],
) -> Result<Vec<Diag>, AllocError>
    requires { IsHeld pool.now map.now }
    ensures { IfOk result (λ found. found.items ≡ map_pairs I.lattice I.numbers flow.now (rows_in pool.now map.now)) }
{
    let mut out = Vec::new(alloc);
    let mut spent = Vec::new(alloc);
    for block in 0..map.len() {
        diagnose_entry(&mut out, &mut spent, flow, pool, &map[block], block)?;
    }
    Ok(out)
}

/// The pairs of place and rule that some instruction of a reached block may break, in the row that it
/// has by the map: in order of places and then of rules, each once.
///
/// # Errors
///
/// Want of memory.
pub fn diagnose<I: IntDomain>(
    alloc: Global,
    flow: &Flow,
    pool: &RowPool<Cell<I>>,
    map: &[Option<Row>],
) -> Result<Vec<Diag>, Memory>
    requires { IsHeld pool.now map.now }
    ensures { IfOk result (λ found. IsOrderedSet (map_pairs I.lattice I.numbers flow.now (rows_in pool.now map.now)) found.items) }
{
    Ok(ordered_diagnostics(diagnose_map(alloc, flow, pool, map)?))
}
