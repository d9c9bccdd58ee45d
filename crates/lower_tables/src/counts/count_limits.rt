//! The counts of a unit's control-flow program, and their limits.
ghost use Rattle.std.specs.Prelude.{◌≡◌, ◌≤◌, IfErr, IfOk, Some, None};
ghost use Rattle.lower_tables.specs.Counts.SizeRefusals.{limit_of, IsTooLarge};
ghost use Rattle.lower_tables.specs.Counts.FirstOver.{over, first_over, refusal_in, unit_counts, pool};

use cc_base::{Count, Fault, Limits, Place, Refusal, Stop};
use lower_objects::counts::{BaseCount, FunctionCounts, capped_product, capped_sum};

/// The counts that are known before the program is made, each the exact one or 10 to the 18 where that
/// is less.
#[derive(Clone, Copy)]
pub struct UnitCounts {
    pub temps: u64,
    pub bases: u64,
    pub cells: u64,
    pub blocks: u64,
    pub instructions: u64,
}

/// The counts of the entry, with the bases that functions share.
pub fn unit_counts(entry: FunctionCounts, shared: BaseCount) -> UnitCounts
    ensures { result ≡ unit_counts entry shared }
{
    UnitCounts {
        temps: entry.temps,
        bases: capped_sum(entry.bases, shared.bases),
        cells: capped_sum(entry.cells, shared.cells),
        blocks: entry.from_empty.blocks,
        instructions: entry.from_empty.instructions,
    }
}

fn limit(what: Count, limits: &Limits) -> u64
    ensures { result ≡ limit_of what limits.now }
{
    match what {
        Count::Temps => limits.temps,
        Count::Bases => limits.bases,
        Count::Cells => limits.cells,
        Count::Blocks => limits.blocks,
        Count::Instructions => limits.instructions,
        Count::Pool => limits.pool,
    }
}

/// The values of a pool of rows: for each block one row, and two more.
pub fn pool_values(blocks: u64, width: u64) -> u64
    ensures { result ≡ pool blocks width }
{
    capped_product(capped_sum(blocks, 2), width)
}

/// Refuses a count that passes its limit.
pub fn within(place: Place, what: Count, count: u64, limits: &Limits) -> Result<(), Stop>
    ensures ok { IfOk result (λ _. count ≤ limit_of what limits.now) }
    ensures err { IfErr result (IsTooLarge limits.now place) }
    ensures fits { IfOk result (λ _. over limits.now what count ≡ None) }
    ensures passes { IfErr result (λ s. over limits.now what count ≡ Some (refusal_in s)) }
{
    let limit = limit(what, limits);
    if count <= limit {
        return Ok(());
    }
    Err(Stop::Refused(Fault {
        place,
        refusal: Refusal::TooLarge { what, count, limit },
    }))
}

/// Refuses the first count that passes its limit.
pub fn all_within(place: Place, counts: UnitCounts, limits: &Limits) -> Result<(), Stop>
    ensures temps { IfOk result (λ _. counts.temps ≤ limits.now.temps) }
    ensures bases { IfOk result (λ _. counts.bases ≤ limits.now.bases) }
    ensures cells { IfOk result (λ _. counts.cells ≤ limits.now.cells) }
    ensures blocks { IfOk result (λ _. counts.blocks ≤ limits.now.blocks) }
    ensures instructions { IfOk result (λ _. counts.instructions ≤ limits.now.instructions) }
    ensures err { IfErr result (IsTooLarge limits.now place) }
    ensures fit { IfOk result (λ _. first_over limits.now counts ≡ None) }
    ensures passes { IfErr result (λ s. first_over limits.now counts ≡ Some (refusal_in s)) }
{
    within(place, Count::Temps, counts.temps, limits)?;
    within(place, Count::Bases, counts.bases, limits)?;
    within(place, Count::Cells, counts.cells, limits)?;
    within(place, Count::Blocks, counts.blocks, limits)?;
    within(place, Count::Instructions, counts.instructions, limits)
}
