//! The run that a replay follows.
ghost use Rattle.std.specs.Prelude.{◌≡◌, ◌≤◌, ◌++◌, ℕ, ℤ, List, Some, true, map, IfOk, IfErr};
ghost use Rattle.c_layout.specs.CheckedUnits.{unit_view};
ghost use Rattle.c_layout.specs.Models.{is_model};
ghost use Rattle.memory_model.specs.Memory.Instances.{total_size};
ghost use Rattle.interp_accesses.specs.WorldViews.{world_view, why_view};
ghost use Rattle.interp_starts.specs.Inputs.Sums.{most_bytes};
ghost use Rattle.interp_starts.specs.declared.inputs.instance_sums.StartStop.TheVariants as stop;
ghost use Rattle.semantics.specs.SourceMachine.RunFacts as run;
ghost use Rattle.semantics.specs.SourceMachine.SourceRuns.{at_place, violations};
ghost use Rattle.interp.specs.Runs.Following.{violation_of, run_view, counted_if, told_of, EndsAs, GoesOn, StaysWithin, FollowsTo};
ghost use Rattle.interp.specs.Runs.OutcomeViews.{end_view};
ghost use Rattle.interp.specs.Runs.Replays.{Reaches};

use crate::machine::{Machine, Turned7, asked_bytes, next_item, turn};
use crate::runs::outcomes::{End, ReplayStop};
use c_layout::Checked;
use cc_base::{Diag, Place};
use interp_accesses::{Cause, World7};
use interp_starts::inputs::{MOST_BYTES, StartStop, may_make};

/// How a run stands that has stopped.
pub fn end_by(cause: Cause) -> End
    ensures { end_view result ≡ run.end_by (Some (why_view cause)) }
{
    match cause {
        Cause::Ended => End::Ended,
        Cause::Violated => End::Violation,
        Cause::OutOfDraws => End::Draws,
        Cause::Left => End::Left,
        Cause::Stuck => End::Left,
    }
}

/// How a run stands that is followed no further, or why it has no outcome.
pub fn no_outcome(stop: StartStop) -> Result<End, ReplayStop>
    ensures { EndsAs stop result }
{
    match stop {
        StartStop::Stops(cause) => Ok(end_by(cause)),
        StartStop::Large(count) => Err(ReplayStop::Large {
            count,
            limit: MOST_BYTES,
        }),
        StartStop::Memory => Err(ReplayStop::Memory),
    }
}

// The place of a step; where there is none, the violations of a turn are told at no place.
#[inline(always)]
fn place_of(counted: Option<Place>) -> Place
    ensures { result ≡ at_place counted }
{
    match counted {
        Some(place) => place,
        None => Place {
            file: 0,
            line: 0,
            col: 0,
        },
    }
}

// The violations of a turn.
#[inline(always)]
fn note(found: &mut Vec<Diag>, w: &World7, counted: Option<Place>) -> Result<(), StartStop>
    ensures noted { IfOk result (λ _. map violation_of found.new.items ≡ map violation_of found.old.items ++ violations counted (world_view w.now)) }
    ensures memory { IfErr result (λ why. why ≡ stop.Memory) }
{
    let place = place_of(counted);
    for rule in &w.violated {
        match found.push(Diag { place, rule: *rule }) {
            Ok(()) => {}
            Err(_) => return Err(StartStop::Memory),
        }
    }
    Ok(())
}

// Whether the turn that was made is a step, and whether the run goes on.
#[inline(always)]
fn told(turned: Turned7) -> Result<bool, StartStop>
    ensures { result ≡ told_of turned.reply turned.counted }
{
    match turned.reply {
        Ok(()) => Ok(turned.counted.is_some()),
        Err(halt) => Err(StartStop::from(halt)),
    }
}

// One turn more; whether it is a step. No more bytes are made than there may be.
#[inline(always)]
fn go_on<'a>(
    m: &mut Machine<'a>,
    unit: &'a Checked,
    found: &mut Vec<Diag>,
) -> Result<bool, StartStop>
    requires { is_model unit.now.model ≡ true }
    ensures next { (k : ℕ) → GoesOn (unit_view unit.now) (run_view (unit_view unit.now) m.old found.old.items k) k result m.new found.new.items }
    ensures within { StaysWithin result m.new.world.memory.memory }
{
    let item = next_item(&mut m.control);
    let asked = asked_bytes(m, unit, item)?;
    may_make(&m.world, asked)?;
    let turned = turn(m, unit, item);
    if m.world.memory.total() > MOST_BYTES {
        return Err(StartStop::Memory);
    }
    note(found, &m.world, turned.counted)?;
    told(turned)
}

// How many steps a turn is.
fn steps_in(is_step: bool) -> u64
    ensures counted { result ≡ counted_if is_step }
    ensures few { result ≤ 1 }
{
    if is_step { 1 } else { 0 }
}

/// Follows a run until it is over, which memory is not too large for.
pub fn follow<'a>(
    m: &mut Machine<'a>,
    unit: &'a Checked,
    found: &mut Vec<Diag>,
    steps: u64,
) -> Result<End, ReplayStop>
    requires model { is_model unit.now.model ≡ true }
    requires within { total_size m.old.world.memory.memory ≤ most_bytes }
    ensures { (draws : List ℤ) → Reaches (unit_view unit.now) draws steps (run_view (unit_view unit.now) m.old found.old.items 0) → FollowsTo (unit_view unit.now) draws steps result m.new found.new.items }
{
    let mut made = 0u64;
    'turns: for _ in 0..u64::MAX {
        if made >= steps {
            return Ok(End::Steps);
        }
        match go_on(m, unit, found) {
            Ok(is_step) => made += steps_in(is_step),
            Err(stop) => return no_outcome(stop),
        }
    }
    Err(ReplayStop::Memory)
}
