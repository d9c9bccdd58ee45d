//! The calls of a unit.
ghost use Rattle.std.specs.Prelude.{◌≡◌, ◌∷◌, ◌++◌, [], true, IfOk, OnErr};
ghost use Rattle.c_types_rules.specs.CallCycles.CallCycles.{first_cycle, is_cyclic};

use crate::call_cycles::certificates::has_cycle;
use cc_base::{Memory, Place};
use std::alloc::Global;
use std::marker::Model;

/// A call in a function's body of a function of the unit.
#[derive(Clone, Copy)]
pub struct Call {
    pub caller: u32,
    pub callee: u32,
    pub place: Place,
}

/// The calls of a unit in reading order.
#[derive(Drop)]
pub struct CallGraph {
    calls: Vec<Call>,
}

impl Model for CallGraph {
    ghost use Rattle.std.specs.Prelude.{List};
    ghost use Rattle.c_types_rules.specs.declared.call_cycles.call_graph.Call.{Call};

    ghost Value = { List Call };

    ghost view = { λ g. g.calls.items };
}

/// The place of the first call that closes a cycle, where one does. The number of calls that close
/// none is halved in until it is known.
#[tactic(auto, using(crate::proofs::call_cycles::Cycles::none_before, crate::proofs::call_cycles::Cycles::some_calls, crate::proofs::call_cycles::Cycles::found_at))]
fn halved(alloc: Global, calls: &[Call], functions: usize) -> Result<Option<Place>, Memory>
    requires { is_cyclic calls.now ≡ true }
    ensures { IfOk result (λ r. r ≡ first_cycle calls.now) }
{
    let mut low = 0usize;
    let mut high = calls.len();
    while high - low > 1 {
        let middle = low + (high - low) / 2;
        if has_cycle(alloc, &calls[..middle], functions)? {
            high = middle;
        } else {
            low = middle;
        }
    }
    Ok(Some(calls[low].place))
}

impl CallGraph {
    /// No call.
    pub fn new(alloc: Global) -> CallGraph
        ensures { result ≡ [] }
    {
        CallGraph {
            calls: Vec::new(alloc),
        }
    }

    /// Adds a call behind the others.
    pub fn add(&mut self, call: Call) -> Result<(), Memory>
        ensures ok { IfOk result (λ _. self.new ≡ self.old ++ call ∷ []) }
        ensures err { OnErr result (self.new ≡ self.old) }
    {
        self.calls.push(call)?;
        Ok(())
    }

    /// The place of the first call that closes a cycle with the calls before it: from its callee
    /// they lead back to its caller.
    pub fn first_cycle(&self, alloc: Global, functions: usize) -> Result<Option<Place>, Memory>
        ensures { IfOk result (λ r. r ≡ first_cycle self.now) }
    {
        let calls = self.calls.as_slice();
        if has_cycle(alloc, calls, functions)? {
            halved(alloc, calls, functions)
        } else {
            Ok(None)
        }
    }
}
