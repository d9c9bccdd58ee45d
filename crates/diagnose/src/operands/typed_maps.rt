//! Operands of a program's instructions, over a map of its rows.
ghost use Rattle.std.specs.Prelude.{◌≡◌, ℕ, Some, IfOk};
ghost use Rattle.fixpoint.specs.Pool.Pool.{row_of, IsTaken};
ghost use Rattle.fixpoint.specs.Solver.RowMap.{IsHeld, slot_index, slot_row, rows_in};
ghost use Rattle.diagnose.specs.Operands.TypedRows as spec;

use crate::operands::typed_instructions::is_typed_block;
use cc_base::{IntDomain, Memory};
use cfg::Flow;
use fixpoint::pool::{Row, RowPool};
use std::alloc::{AllocError, Global};
use value_domain::values::Cell;

/// Makes `spent` the row of the pool, which may then be written.
fn copy_row<I: IntDomain>(
    spent: &mut Vec<Cell<I>>,
    pool: &RowPool<Cell<I>>,
    row: &Row,
) -> Result<(), AllocError>
    requires { IsTaken pool.now row.now.index }
    ensures { IfOk result (λ _. spent.new.items ≡ row_of pool.now row.now.index) }
{
    spent.clear();
    spent.extend_from_slice(pool.row(row))
}

/// Whether the operands of a block's instructions lie within their types from the row that the block has
/// by the map, of which `spent` becomes a copy.
fn is_typed_entry<I: IntDomain>(
    spent: &mut Vec<Cell<I>>,
    flow: &Flow,
    pool: &RowPool<Cell<I>>,
    slot: &Option<Row>,
    block: usize,
) -> Result<bool, AllocError>
    requires { (s : ℕ) → slot_index slot.now ≡ Some s → IsTaken pool.now s }
    ensures { IfOk result (λ held. held ≡ spec.is_typed_entry I.lattice I.numbers flow.now block (slot_row pool.now slot.now)) }
{
    match slot {
        None => Ok(true),
        Some(row) => {
            let number = u32::try_from(block).ok().ok_or(AllocError)?;
            copy_row(spent, pool, row)?;
            Ok(is_typed_block(flow, spent.as_mut_slice(), number))
        }
    }
}

/// Whether, in the rows of the map, the operands of each instruction lie within the types that it names.
///
/// # Errors
///
/// Want of memory.
#[tactic(auto, unfolding(crate::specs::Operands::TypedRows::is_typed_map))]
pub fn is_typed_map<I: IntDomain>(
    alloc: Global,
    flow: &Flow,
    pool: &RowPool<Cell<I>>,
    map: &[Option<Row>],
) -> Result<bool, Memory>
    requires { IsHeld pool.now map.now }
    ensures { IfOk result (λ held. held ≡ spec.is_typed_map I.lattice I.numbers flow.now (rows_in pool.now map.now)) }
{
    let mut spent = Vec::new(alloc);
    for block in 0..map.len() {
        if !is_typed_entry(&mut spent, flow, pool, &map[block], block)? {
            return Ok(false);
        }
    }
    Ok(true)
}
