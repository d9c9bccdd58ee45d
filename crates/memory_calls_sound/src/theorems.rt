//! Theorems: transfer functions of memory calls are sound.
ghost use Rattle.memory_calls_sound.specs.Theorems as spec;

use cc_base::IntDomain;

// ---- Where a row stands for a state of a well-formed program, the row behind a call that allocates at a site
// stands for the state behind it, there is none only where no run goes on, and each rule that the call violates is
// admitted, if the sizes are not negative.

/// `malloc` and `calloc`.
pub fn allocation_calls_are_sound<I: IntDomain>()
    ensures { spec.AllocationCallsAreSoundEverywhere I.lattice I.numbers I.stands }
{}

// ---- Where a row stands for a state, the row behind a call of `free` stands for the state behind it, there is
// none only where no run goes on, and each rule that the call violates is admitted.

/// `free` (7.22.3.3 of ISO/IEC 9899:2011).
pub fn free_calls_are_sound<I: IntDomain>()
    ensures { spec.FreeCallsAreSoundEverywhere I.lattice I.numbers I.stands }
{}

// ---- Where a row stands for a state, the row behind a call that copies bytes stands for the state behind it,
// there is none only where no run goes on, and each rule that the call violates is admitted, if its size is not
// negative.

/// `memcpy` and `memmove`.
pub fn copy_calls_are_sound<I: IntDomain>()
    ensures { spec.CopyCallsAreSoundEverywhere I.lattice I.numbers I.stands }
{}

// ---- Where a row stands for a state of a well-formed program, the row behind a call that gives an instance
// another size stands for the state behind it, there is none only where no run goes on, and each rule that the
// call violates is admitted, if the size is not negative.

/// `realloc`.
pub fn reallocation_calls_are_sound<I: IntDomain>()
    ensures { spec.ReallocationCallsAreSoundEverywhere I.lattice I.numbers I.stands }
{}
