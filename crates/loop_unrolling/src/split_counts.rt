//! What a split program has, counted without making it.
ghost use Rattle.std.specs.Prelude.{◌≡◌, ◌+◌, IfErr, IfOk, None, Some, map, length};
ghost use Rattle.lower_objects.specs.Counts.Extents.{capped};
ghost use Rattle.lower_tables.specs.Counts.FirstOver.{refusal_in};
ghost use Rattle.lower_tables.specs.Counts.SizeRefusals.{IsTooLarge};
ghost use Rattle.lower_templates.specs.Views.ProgramViews.{block, flow_view};
ghost use Rattle.loop_unrolling.specs.SplitCounts as spec;

use cc_base::{Count, Limits, Place, Stop};
use cfg::{BasicBlock, Flow};
use lower_tables::counts::{capped_product, capped_sum, pool_values, within};

/// The counts of a split program that differ from those of the program.
#[derive(Clone, Copy)]
pub struct SplitCounts {
    pub blocks: u64,
    pub instructions: u64,
    /// The values of a pool of rows: for each block one row, and two more.
    pub pool: u64,
}

/// How many instructions blocks have.
fn instruction_count(blocks: &[BasicBlock]) -> u64
    ensures { result ≡ spec.instruction_count (map block blocks.now) }
{
    let mut count = 0;
    for found in blocks {
        count = capped_sum(count, found.instructions.len() as u64);
    }
    count
}

/// What a program has with so many turns of its loops unrolled.
pub fn split_counts(flow: &Flow, turns: u32) -> SplitCounts
    ensures { result ≡ spec.split_counts turns (flow_view flow.now) }
{
    let copies = turns as u64 + 2;
    let blocks = capped_product(copies, flow.blocks.len() as u64);
    SplitCounts {
        blocks,
        instructions: capped_product(copies, instruction_count(flow.blocks.as_slice())),
        pool: pool_values(blocks, flow.width as u64),
    }
}

/// Refuses the first count that passes its limit.
pub fn counts_within(place: Place, counts: SplitCounts, limits: &Limits) -> Result<(), Stop>
    ensures cause { IfErr result (IsTooLarge limits.now place) }
    ensures fits { IfOk result (λ _. spec.first_over limits.now counts ≡ None) }
    ensures passes { IfErr result (λ s. spec.first_over limits.now counts ≡ Some (refusal_in s)) }
{
    within(place, Count::Blocks, counts.blocks, limits)?;
    within(place, Count::Instructions, counts.instructions, limits)?;
    within(place, Count::Pool, counts.pool, limits)
}
