//! Replays of runs.
ghost use Rattle.std.specs.Prelude.{◌≡◌, ◌≤◌, ◌-◌, [], true, length, IfOk, IfErr};
ghost use Rattle.cc_base.specs.DiagnosticOrder.{IsOrderedSet};
ghost use Rattle.c_layout.specs.CheckedUnits.{unit_view};
ghost use Rattle.c_layout.specs.Models.{is_model};
ghost use Rattle.memory_model.specs.Effects.Worlds.{done};
ghost use Rattle.memory_model.specs.Memory.Instances.{total_size};
ghost use Rattle.interp_accesses.specs.WorldViews.{world_view};
ghost use Rattle.interp_starts.specs.Inputs.Sums.{most_bytes};
ghost use Rattle.semantics.specs.SourceMachine.SourceRuns.{source_begin, begun_by};
ghost use Rattle.interp.specs.Runs.OutcomeViews.{end_view};
ghost use Rattle.interp.specs.Runs.Replays.{IsOutcome, IsStop};
ghost use Rattle.interp.specs.declared.runs.outcomes.ReplayStop.TheVariants as stop;

use crate::machine::begin;
use crate::runs::outcomes::{End, Outcome, ReplayStop};
use crate::runs::runs::{follow, no_outcome};
use c_layout::{Checked, is_sound};
use cc_base::{Diag, ordered_diagnostics};
use interp_accesses::World7;
use interp_memory::Memory7;
use interp_starts::inputs::{MOST_BYTES, start};
use std::alloc::Global;

/// What the run of a checked unit comes to (5.1.2.3 of ISO/IEC 9899:2011) that takes its numbers of the
/// outside from `draws`, in order, and is followed until it has stopped or has made `steps` steps, from
/// 0 to 1,000,000. The numbers are the values of the entry's parameters, characters and lines that are
/// read, answers to allocations, and what `printf` returns; there may be any number of them, and one
/// that is missing or out of its range ends the run. So the outcome depends on the arguments alone.
///
/// # Errors
///
/// `Large` where the instances of all objects together pass 4,194,304 bytes in the run as far as it is
/// followed, and `Memory` on want of memory.
pub fn replay(
    alloc: Global,
    unit: &Checked,
    draws: &[i128],
    steps: u64,
) -> Result<Outcome, ReplayStop>
    requires { steps ≤ 1000000 }
    ensures outcome { IfOk result (λ o. IsOutcome (unit_view unit.now) draws.now steps o) }
    ensures stop { IfErr result (λ s. IsStop (unit_view unit.now) draws.now steps s) }
{
    if !is_sound(&unit.model) {
        return Err(ReplayStop::Memory);
    }
    let mut world = world_before(alloc, unit, draws)?;
    match start(&mut world, unit) {
        Ok(()) => replay_from(unit, draws, world, steps),
        Err(stop) => {
            let end = no_outcome(stop)?;
            told_small(alloc, draws, end, &world)
        }
    }
}

// The world before anything is made.
fn world_before(alloc: Global, unit: &Checked, draws: &[i128]) -> Result<World7, ReplayStop>
    ensures world { IfOk result (λ w. world_view w ≡ record { memory = []; draws = draws.now; violated = [] }) }
    ensures memory { IfErr result (λ s. s ≡ stop.Memory) }
{
    match Vec::from_slice(alloc, draws) {
        Ok(draws) => Ok(World7 {
            alloc,
            memory: Memory7::new(alloc, &unit.model),
            draws,
            taken: 0,
            violated: Vec::new(alloc),
        }),
        Err(_) => Err(ReplayStop::Memory),
    }
}

// How many numbers of the outside are used.
fn used(draws: &[i128], world: &World7) -> u64
    ensures { result ≡ length draws.now - length (world_view world.now).draws }
{
    let left = world.draws.len().saturating_sub(world.taken);
    draws.len().saturating_sub(left) as u64
}

fn outcome(found: Vec<Diag>, draws: &[i128], end: End, world: &World7) -> Outcome
    ensures diags { IsOrderedSet found.items result.diags }
    ensures end { result.end ≡ end_view end }
    ensures used { result.used ≡ length draws.now - length (world_view world.now).draws }
{
    Outcome {
        diags: ordered_diagnostics(found),
        end,
        used: used(draws, world),
    }
}

// The outcome of a run that has stopped at its start.
fn told_small(
    alloc: Global,
    draws: &[i128],
    end: End,
    world: &World7,
) -> Result<Outcome, ReplayStop>
    ensures within { IfOk result (λ _. total_size world.now.memory.memory ≤ most_bytes) }
    ensures diags { IfOk result (λ o. IsOrderedSet [] o.diags) }
    ensures end { IfOk result (λ o. o.end ≡ end_view end) }
    ensures used { IfOk result (λ o. o.used ≡ length draws.now - length (world_view world.now).draws) }
    ensures memory { IfErr result (λ s. s ≡ stop.Memory) }
{
    if world.memory.total() > MOST_BYTES {
        return Err(ReplayStop::Memory);
    }
    Ok(outcome(Vec::new(alloc), draws, end, world))
}

// The outcome of a run that begins in a world.
fn replay_from(
    unit: &Checked,
    draws: &[i128],
    world: World7,
    steps: u64,
) -> Result<Outcome, ReplayStop>
    requires { is_model unit.now.model ≡ true }
    ensures outcome { source_begin (unit_view unit.now) draws.now ≡ begun_by (unit_view unit.now) (done (world_view world)) → IfOk result (λ o. IsOutcome (unit_view unit.now) draws.now steps o) }
    ensures stop { source_begin (unit_view unit.now) draws.now ≡ begun_by (unit_view unit.now) (done (world_view world)) → IfErr result (λ s. IsStop (unit_view unit.now) draws.now steps s) }
{
    if world.memory.total() > MOST_BYTES {
        return Err(ReplayStop::Memory);
    }
    let alloc = world.alloc;
    let Ok(mut m) = begin(alloc, unit, world) else {
        return Err(ReplayStop::Memory);
    };
    let mut found = Vec::new(alloc);
    let end = follow(&mut m, unit, &mut found, steps)?;
    Ok(outcome(found, draws, end, &m.world))
}
