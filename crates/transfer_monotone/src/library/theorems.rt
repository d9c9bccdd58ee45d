//! Library calls that grow with the row, over any domain of integers whose operations do.
ghost use Rattle.cc_base.specs.IntegerLaws.{MonotoneLaws};
ghost use Rattle.cfg.specs.declared.programs.Flow.{Flow};
ghost use Rattle.pointer_domain.specs.declared.base_sets.Bases.{Bases};
ghost use Rattle.transfer_monotone.specs.Values.LaidOut.{IsLaidOut};
ghost use Rattle.transfer_monotone.specs.Library.AllocationCalls.{AllocationCallsRise};
ghost use Rattle.transfer_monotone.specs.Library.Sites.{HasSites};
ghost use Rattle.transfer_monotone.specs.Library.SimpleCalls.{SimpleCallsRise};
ghost use Rattle.transfer_monotone.specs.Library.StringCalls.{StringCallsRise};

use cc_base::IntDomain;

/// A call that ends the program, or works on a single character, in a larger row leaves a larger row, an own one of consistent
/// pointer parts, and may violate each rule that it may violate in a smaller one.
pub fn simple_calls_are_monotone<I: IntDomain>()
    ensures { MonotoneLaws I.lattice I.numbers → (all : Bases) (flow : Flow) → IsLaidOut all flow → SimpleCallsRise I.lattice I.numbers all flow }
{}

/// A call of `malloc`, `calloc`, `realloc` or `free` does so too, at sites whose bases match.
pub fn allocations_are_monotone<I: IntDomain>()
    ensures { MonotoneLaws I.lattice I.numbers → (all : Bases) (flow : Flow) → IsLaidOut all flow → HasSites all flow → AllocationCallsRise I.lattice I.numbers all flow }
{}

/// A call of `strlen`, `strcmp`, `puts` or `printf` in a larger row leaves a larger row, an own one of consistent pointer
/// parts, and may violate each rule that it may violate in a smaller one.
pub fn string_calls_are_monotone<I: IntDomain>()
    ensures { MonotoneLaws I.lattice I.numbers → (all : Bases) (flow : Flow) → IsLaidOut all flow → StringCallsRise I.lattice I.numbers all flow }
{}
