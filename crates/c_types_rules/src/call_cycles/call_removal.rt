//! Functions that nothing calls are taken away, one after another, with the calls that they make.
use crate::call_cycles::call_graph::Call;
use cc_base::Memory;
use std::alloc::Global;

/// How many calls each function is called by.
fn counted(alloc: Global, calls: &[Call], functions: usize) -> Result<Vec<u32>, Memory> {
    let mut counts = Vec::new(alloc);
    for _function in 0..functions {
        counts.push(0u32)?;
    }
    for call in calls {
        if let Some(count) = counts.get_mut(call.callee as usize) {
            *count = count.saturating_add(1);
        }
    }
    Ok(counts)
}

/// For each function the positions of its calls: where they begin in a list by caller.
#[derive(Drop)]
struct ByCaller {
    starts: Vec<usize>,
    order: Vec<usize>,
}

/// Sorts the positions of calls by their callers.
fn by_caller(alloc: Global, calls: &[Call], functions: usize) -> Result<ByCaller, Memory> {
    let mut starts = Vec::new(alloc);
    for _function in 0..functions {
        starts.push(0usize)?;
    }
    let mut order = Vec::new(alloc);
    for at in 0..calls.len() {
        order.push(at)?;
    }
    order.sort_by_key(|at| match calls.get(*at) {
        Some(call) => call.caller,
        None => 0,
    })?;
    for at in (0..order.len()).rev() {
        if let Some(position) = order.get(at) {
            if let Some(call) = calls.get(*position) {
                if let Some(start) = starts.get_mut(call.caller as usize) {
                    *start = at;
                }
            }
        }
    }
    Ok(ByCaller { starts, order })
}

/// The functions that nothing calls.
fn uncalled(alloc: Global, counts: &[u32]) -> Result<Vec<u32>, Memory> {
    let mut found = Vec::new(alloc);
    for at in 0..counts.len() {
        if counts[at] == 0 {
            found.push(u32::try_from(at).map_err(|_| Memory)?)?;
        }
    }
    Ok(found)
}

/// Takes a function's calls away; those that nothing calls any more join `ready`.
fn release(
    sorted: &ByCaller,
    calls: &[Call],
    function: u32,
    counts: &mut Vec<u32>,
    ready: &mut Vec<u32>,
) -> Result<(), Memory> {
    let start = sorted.starts.get(function as usize).copied().unwrap_or(0);
    for at in start..sorted.order.len() {
        let Some(position) = sorted.order.get(at) else {
            return Ok(());
        };
        let Some(call) = calls.get(*position) else {
            return Ok(());
        };
        if call.caller != function {
            return Ok(());
        }
        if let Some(count) = counts.get_mut(call.callee as usize) {
            *count = count.saturating_sub(1);
            if *count == 0 {
                ready.push(call.callee)?;
            }
        }
    }
    Ok(())
}

/// The turn, from 1 on, at which each function is taken away, and 0 for those that stay.
pub fn turns_of(alloc: Global, calls: &[Call], functions: usize) -> Result<Vec<usize>, Memory> {
    let mut counts = counted(alloc, calls, functions)?;
    let sorted = by_caller(alloc, calls, functions)?;
    let mut ready = uncalled(alloc, counts.as_slice())?;
    let mut turns = Vec::new(alloc);
    for _function in 0..functions {
        turns.push(0usize)?;
    }
    for turn in 0..functions {
        let Some(function) = ready.pop() else {
            return Ok(turns);
        };
        if let Some(place) = turns.get_mut(function as usize) {
            *place = turn + 1;
        }
        release(&sorted, calls, function, &mut counts, &mut ready)?;
    }
    Ok(turns)
}

/// For each function that stays the position of a call of it by one that stays.
pub fn callers_of(
    alloc: Global,
    calls: &[Call],
    turns: &[usize],
) -> Result<Vec<Option<usize>>, Memory> {
    let mut callers = Vec::new(alloc);
    for _function in turns {
        callers.push(None)?;
    }
    for at in 0..calls.len() {
        let call = calls[at];
        if turns.get(call.caller as usize) == Some(&0) {
            if turns.get(call.callee as usize) == Some(&0) {
                if let Some(place) = callers.get_mut(call.callee as usize) {
                    *place = Some(at);
                }
            }
        }
    }
    Ok(callers)
}
