//! The counts of a program.
ghost use Rattle.std.specs.Prelude.{◌≡◌, ◌+◌, ◌*◌, IfOk, length};
ghost use Rattle.cfg.specs.WellFormed as spec;

use cc_base::Limits;
use cfg::{BasicBlock, Flow};
use cfg_bases_checks::all_cells;
use std::alloc::AllocError;

/// How many instructions blocks have together.
fn all_instructions(blocks: &[BasicBlock]) -> Result<u64, AllocError>
    ensures { IfOk result (λ n. n ≡ spec.all_instructions blocks.now) }
{
    let mut count: u64 = 0;
    for block in blocks {
        let more = block.instructions.len() as u64;
        count = count.checked_add(more).ok_or(AllocError)?;
    }
    Ok(count)
}

/// How many values a pool has with a row for each block and two more.
fn pool_values(flow: &Flow) -> Result<u64, AllocError>
    ensures { IfOk result (λ n. n ≡ (length flow.now.blocks.items + 2) * flow.now.width) }
{
    let rows = (flow.blocks.len() as u64).checked_add(2).ok_or(AllocError)?;
    rows.checked_mul(flow.width as u64).ok_or(AllocError)
}

/// Whether each count is within its limit.
pub fn is_within(flow: &Flow, limits: &Limits) -> Result<bool, AllocError>
    ensures { IfOk result (λ b. b ≡ spec.is_within limits.now flow.now) }
{
    let cells = all_cells(flow.bases.as_slice())?;
    let instructions = all_instructions(flow.blocks.as_slice())?;
    let pool = pool_values(flow)?;
    Ok(
        flow.temps as u64 <= limits.temps
            && (flow.bases.len() as u64 <= limits.bases
                && (cells <= limits.cells
                    && (flow.blocks.len() as u64 <= limits.blocks
                        && (instructions <= limits.instructions && pool <= limits.pool)))),
    )
}
