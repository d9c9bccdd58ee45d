//! One run of a unit that was expanded.
ghost use Rattle.std.specs.Prelude.{◌≡◌, ◌≤◌, IfErr, IfOk, true};
ghost use Rattle.c_layout.specs.CheckedUnits.{unit_view};
ghost use Rattle.c_layout.specs.Models.{is_model};
ghost use Rattle.lower_preconditions.specs.Units.RegularUnits.{is_regular_unit};
ghost use Rattle.cfg.specs.declared.programs.Flow.{Flow};
ghost use Rattle.cli_units.specs.Judging.{setting_view, IsLowered, IsParsed, IsTyped, StopsUnit};
ghost use Rattle.cli_units.specs.Replaying.{run_answer, IsEntryPlace, IsReplayed, IsRun};

use crate::unit_answers::{Setting, looked, lowered, parsed, typed};
use c_layout::{Checked, Tree7, Unit7};
use cc_base::{Memory, Place, Stop};
use interp::runs::{Outcome, ReplayStop, replay};
use std::alloc::Global;

/// What one run of a unit comes to.
#[derive(Drop)]
pub enum Replayed {
    Ran(Outcome),
    /// All its objects have `count` bytes together, up to the one with which they pass `limit`. The place is that of
    /// the entry's name.
    Large {
        place: Place,
        count: u128,
        limit: u64,
    },
}

/// The place of the entry's name, where the unit's program is within the limits.
fn entry_place(
    alloc: Global,
    unit: &Unit7,
    tree: &Tree7,
    checked: &Checked,
    setting: Setting,
) -> Result<Place, Stop>
    requires parsed { IsParsed unit.now tree.now }
    requires typed { IsTyped (setting_view setting) tree.now checked.now }
    ensures place { IfOk result (IsEntryPlace (unit_view checked.now)) }
    ensures regular { IfOk result (λ _. is_regular_unit (unit_view checked.now) ≡ true) }
    ensures lowered { IfOk result (λ _. (flow : Flow) × IsLowered checked.now flow) }
    ensures stops { IfErr result (StopsUnit unit.now (setting_view setting.entry)) }
{
    let flow = lowered(alloc, unit, tree, checked, setting)?;
    Ok(flow.entry)
}

/// What the run of a checked unit over these draws comes to, told at a place where it has too many bytes.
fn run(
    alloc: Global,
    checked: &Checked,
    place: Place,
    draws: &[i128],
    steps: u64,
) -> Result<Replayed, Memory>
    requires place { IsEntryPlace (unit_view checked.now) place }
    requires steps { steps ≤ 1000000 }
    ensures { IfOk result (λ r. IsRun (unit_view checked.now) draws.now steps (run_answer r)) }
{
    match replay(alloc, checked, draws, steps) {
        Ok(outcome) => Ok(Replayed::Ran(outcome)),
        Err(ReplayStop::Large { count, limit }) => Ok(Replayed::Large {
            place,
            count,
            limit,
        }),
        Err(ReplayStop::Memory) => Err(Memory),
    }
}

/// Parses, checks, lowers and looks at a unit, and takes its run over these draws, of so many steps at most, from 0 to
/// 1,000,000.
pub fn replay_unit(
    alloc: Global,
    unit: &Unit7,
    setting: Setting,
    draws: &[i128],
    steps: u64,
) -> Result<Replayed, Stop>
    requires proper { is_model setting.model.now ≡ true }
    requires model { unit.now.model ≡ setting.model.now }
    requires steps { steps ≤ 1000000 }
    ensures replayed { IfOk result (λ r. IsReplayed unit.now (setting_view setting.entry) draws.now steps (run_answer r)) }
    ensures stops { IfErr result (StopsUnit unit.now (setting_view setting.entry)) }
{
    let tree = parsed(alloc, unit, setting)?;
    let checked = typed(alloc, unit, &tree, setting)?;
    let place = entry_place(alloc, unit, &tree, &checked, setting)?;
    looked(unit, setting)?;
    let replayed = run(alloc, &checked, place, draws, steps)?;
    Ok(replayed)
}
