//! Steps on integers and pointers, and the rules that they may violate, grow with the row, over any domain of integers whose
//! operations do. Rows are own ones, and the pointer parts of the smaller row are consistent.
ghost use Rattle.cc_base.specs.IntegerLaws.{MonotoneLaws};
ghost use Rattle.cfg.specs.declared.programs.Flow.{Flow};
ghost use Rattle.pointer_domain.specs.declared.base_sets.Bases.{Bases};
ghost use Rattle.transfer_monotone.specs.Values.LaidOut.{IsLaidOut};
ghost use Rattle.transfer_monotone.specs.Values.StepLaws.{IntegerStepsRise, IntegerChecksRise, PointerStepsRise, PointerChecksRise};

use cc_base::IntDomain;

/// A step on integers in a larger row leaves a larger row, an own one, and one of consistent pointer parts.
pub fn steps_on_integers_are_monotone<I: IntDomain>()
    ensures { MonotoneLaws I.lattice I.numbers → (all : Bases) (flow : Flow) → IsLaidOut all flow → IntegerStepsRise I.lattice I.numbers all flow }
{}

/// A step on integers in a larger row may violate each rule that it may violate in a smaller one.
pub fn checks_of_integers_are_monotone<I: IntDomain>()
    ensures { MonotoneLaws I.lattice I.numbers → (all : Bases) (flow : Flow) → IsLaidOut all flow → IntegerChecksRise I.lattice I.numbers all flow }
{}

/// A step on pointers in a larger row leaves a larger row, an own one, and one of consistent pointer parts.
pub fn steps_on_pointers_are_monotone<I: IntDomain>()
    ensures { MonotoneLaws I.lattice I.numbers → (all : Bases) (flow : Flow) → IsLaidOut all flow → PointerStepsRise I.lattice I.numbers all flow }
{}

/// A step on pointers in a larger row may violate each rule that it may violate in a smaller one.
pub fn checks_of_pointers_are_monotone<I: IntDomain>()
    ensures { MonotoneLaws I.lattice I.numbers → (all : Bases) (flow : Flow) → IsLaidOut all flow → PointerChecksRise I.lattice I.numbers all flow }
{}
