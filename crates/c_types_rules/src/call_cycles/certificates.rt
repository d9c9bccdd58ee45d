//! Whether calls make a cycle. What taking functions away finds is no proof by itself: two tests
//! look at what it found, and each of them decides.
ghost use Rattle.std.specs.Prelude.{◌≡◌, IfOk};
ghost use Rattle.c_types_rules.specs.CallCycles.CallCycles.{is_cyclic};
ghost use Rattle.c_types_rules.specs.CallCycles.Certificates as spec;

use crate::call_cycles::call_graph::Call;
use crate::call_cycles::call_removal::{callers_of, turns_of};
use cc_base::Memory;
use std::alloc::Global;

/// The turn of a function; 0 where it has none.
fn turn_of(turns: &[usize], function: u32) -> usize
    ensures { result ≡ spec.turn_of turns.now function }
{
    match turns.get(function as usize) {
        Some(turn) => *turn,
        None => 0,
    }
}

/// Whether the caller's turn comes before that of its callee.
fn is_in_turn(turns: &[usize], call: &Call) -> bool
    ensures { result ≡ spec.is_in_turn turns.now call.now }
{
    turn_of(turns, call.caller) < turn_of(turns, call.callee)
}

/// Whether each caller's turn comes before that of its callee: then no calls make a cycle.
#[tactic(auto, unfolding(crate::specs::CallCycles::Certificates::are_in_turn))]
fn are_in_turn(turns: &[usize], calls: &[Call]) -> bool
    ensures { result ≡ spec.are_in_turn turns.now calls.now }
{
    for call in calls {
        if !is_in_turn(turns, call) {
            return false;
        }
    }
    true
}

/// The position of a call that is kept for a function.
fn kept_for(callers: &[Option<usize>], function: u32) -> Option<usize>
    ensures { result ≡ spec.kept_for callers.now function }
{
    match callers.get(function as usize) {
        Some(kept) => *kept,
        None => None,
    }
}

/// Whether a call is one of this function by a function for which a call is kept.
fn is_kept_call(call: &Call, callers: &[Option<usize>], function: usize) -> bool
    ensures { result ≡ spec.is_kept_call callers.now function call.now }
{
    if call.callee as usize == function {
        kept_for(callers, call.caller).is_some()
    } else {
        false
    }
}

/// Whether at a position there stands a call of this function by a function for which a call is
/// kept.
fn is_kept_at(calls: &[Call], callers: &[Option<usize>], function: usize, at: usize) -> bool
    ensures { result ≡ spec.is_kept_at calls.now callers.now function at }
{
    match calls.get(at) {
        Some(call) => is_kept_call(call, callers, function),
        None => false,
    }
}

/// Whether what is kept for a function is nothing, or a call of it by a function for which a call is
/// kept.
fn is_held(calls: &[Call], callers: &[Option<usize>], function: usize, kept: Option<usize>) -> bool
    ensures { result ≡ spec.is_held calls.now callers.now function kept }
{
    match kept {
        Some(at) => is_kept_at(calls, callers, function, at),
        None => true,
    }
}

/// Whether each function for which a call is kept is called so.
#[tactic(auto, unfolding(crate::specs::CallCycles::Certificates::are_held))]
fn are_held(calls: &[Call], callers: &[Option<usize>]) -> bool
    ensures { result ≡ spec.are_held calls.now callers.now 0 callers.now }
{
    for function in 0..callers.len() {
        if !is_held(calls, callers, function, callers[function]) {
            return false;
        }
    }
    true
}

/// Whether a call is kept for some function.
#[tactic(auto, unfolding(crate::specs::CallCycles::Certificates::any_kept))]
fn any_kept(callers: &[Option<usize>]) -> bool
    ensures { result ≡ spec.any_kept callers.now }
{
    for kept in callers {
        if kept.is_some() {
            return true;
        }
    }
    false
}

/// Whether calls make a cycle.
#[tactic(auto, using(crate::proofs::call_cycles::Cycles::in_turn_no_cycle, crate::proofs::call_cycles::Cycles::held_cycle))]
pub fn has_cycle(alloc: Global, calls: &[Call], functions: usize) -> Result<bool, Memory>
    ensures { IfOk result (λ b. b ≡ is_cyclic calls.now) }
{
    let turns = turns_of(alloc, calls, functions)?;
    if are_in_turn(turns.as_slice(), calls) {
        return Ok(false);
    }
    let callers = callers_of(alloc, calls, turns.as_slice())?;
    if any_kept(callers.as_slice()) {
        if are_held(calls, callers.as_slice()) {
            return Ok(true);
        }
    }
    Err(Memory)
}
