//! The row at the start of a block, taken to the end of one of its edges.
ghost use Rattle.std.specs.Prelude.{◌≡◌, true, false, Some, None, length};
ghost use Rattle.transfer_system.specs.System.BlockPasses.{reached_row, row_behind, rows_behind, block_end, instructions_of, edge_end};

use cc_base::IntDomain;
use cfg::{Flow, Instruction};
use transfer_edges::edge;
use transfer_instructions::instructions::operate;
use value_domain::values::Cell;

/// Makes of the row before an instruction, where it is reached, the row behind it; false where no run
/// goes on.
fn pass_reached<I: IntDomain>(
    reached: bool,
    flow: &Flow,
    row: &mut [Cell<I>],
    one: &Instruction,
) -> bool
    ensures length { length row.new ≡ length row.old }
    ensures row { reached_row result row.new ≡ row_behind I.lattice I.numbers flow.now one.now (reached_row reached row.old) }
{
    if reached {
        if operate(flow, row, &one.operation) {
            true
        } else {
            false
        }
    } else {
        false
    }
}

/// Takes a row behind all instructions; false where no run goes on.
fn pass_instructions<I: IntDomain>(
    flow: &Flow,
    row: &mut [Cell<I>],
    instructions: &[Instruction],
) -> bool
    ensures length { length row.new ≡ length row.old }
    ensures row { reached_row result row.new ≡ rows_behind I.lattice I.numbers flow.now (Some row.old) instructions.now }
{
    let mut reached = true;
    for at in 0..instructions.len() {
        reached = pass_reached(reached, flow, row, &instructions[at]);
    }
    reached
}

/// The instructions of a block; none where there is no such block.
fn instructions_of(flow: &Flow, block: u32) -> &[Instruction]
    ensures { result.now ≡ instructions_of flow.now block }
{
    match flow.blocks.get(block as usize) {
        None => &[],
        Some(found) => found.instructions.as_slice(),
    }
}

/// Takes the row at the start of a block to its end; false where no run goes on.
#[tactic(auto, unfolding(crate::specs::System::BlockPasses::block_end))]
fn pass_block<I: IntDomain>(flow: &Flow, row: &mut [Cell<I>], block: u32) -> bool
    ensures length { length row.new ≡ length row.old }
    ensures reached { result ≡ true → block_end I.lattice I.numbers flow.now block row.old ≡ Some row.new }
    ensures unreached { result ≡ false → block_end I.lattice I.numbers flow.now block row.old ≡ None }
{
    pass_instructions(flow, row, instructions_of(flow, block))
}

/// Takes the row at the start of a block to the end of one of its edges; false where no run takes it.
#[tactic(auto, unfolding(crate::specs::System::BlockPasses::edge_end))]
pub fn pass_edge<I: IntDomain>(flow: &Flow, row: &mut [Cell<I>], block: u32, number: u32) -> bool
    ensures length { length row.new ≡ length row.old }
    ensures reached { result ≡ true → edge_end I.lattice I.numbers flow.now block number row.old ≡ Some row.new }
    ensures unreached { result ≡ false → edge_end I.lattice I.numbers flow.now block number row.old ≡ None }
{
    if pass_block(flow, row, block) {
        edge(flow, row, number)
    } else {
        false
    }
}
