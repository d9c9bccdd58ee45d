//! What a step acts on, and how it ends.
ghost use Rattle.std.specs.Prelude.{◌≡◌, ◌∷◌, [], ℤ};
ghost use Rattle.memory_model.specs.Effects.Worlds as machine;
ghost use Rattle.interp_accesses.specs.WorldViews.{world_view, StopsAs, ComesTo, nothing_view};

use cc_base::Rule;
use interp_memory::Memory7;
use std::alloc::Global;

/// Memory, the numbers of the outside with how many of them are taken, and the rules that the step
/// at hand has violated.
#[derive(Drop)]
pub struct World7 {
    pub alloc: Global,
    pub memory: Memory7,
    pub draws: Vec<i128>,
    pub taken: usize,
    pub violated: Vec<Rule>,
}

/// Why a run stops.
#[derive(Clone, Copy, PartialEq, Eq)]
pub enum Cause {
    /// The entry has returned, or `exit` or `abort` was called.
    Ended,
    /// The last step violates a rule that ends the run.
    Violated,
    /// The outside gives no number, or one that is out of its range.
    OutOfDraws,
    /// The unit does something that violates no rule and is not looked at any further.
    Left,
    /// No step is defined.
    Stuck,
}

/// A step does not go on.
#[derive(Clone, Copy, PartialEq, Eq)]
pub enum Halt {
    Stops(Cause),
    /// Want of memory.
    Memory,
}

impl World7 {
    /// The next number of the outside, which has to lie between two others. One that is out of its
    /// range is taken all the same.
    pub fn draw(&mut self, least: i128, most: i128) -> Result<i128, Halt>
        ensures { ComesTo (λ (n : ℤ). n) (machine.drawn (world_view self.old) least most) result (world_view self.new) }
    {
        if self.taken >= self.draws.len() {
            return Err(Halt::Stops(Cause::OutOfDraws));
        }
        let number = self.draws[self.taken];
        self.taken += 1;
        if least <= number && number <= most {
            Ok(number)
        } else {
            Err(Halt::Stops(Cause::OutOfDraws))
        }
    }

    /// The run stops at a violation.
    pub fn stopped_by(&mut self, rule: Rule) -> Halt
        ensures { StopsAs result machine.Violated (machine.violating (world_view self.old) (rule ∷ [])) (world_view self.new) }
    {
        match self.violated.push(rule) {
            Ok(()) => Halt::Stops(Cause::Violated),
            Err(_) => Halt::Memory,
        }
    }

    /// A rule that is violated where something holds; the run goes on.
    pub fn note(&mut self, violates: bool, rule: Rule) -> Result<(), Halt>
        ensures { ComesTo nothing_view (machine.done (machine.noted (world_view self.old) violates rule)) result (world_view self.new) }
    {
        if !violates {
            return Ok(());
        }
        match self.violated.push(rule) {
            Ok(()) => Ok(()),
            Err(_) => Err(Halt::Memory),
        }
    }
}
