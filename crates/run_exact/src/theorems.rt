//! Theorems: what all inductive maps of a plain program admit, its run violates.
ghost use Rattle.run_exact.specs.Theorems as spec;

use cc_base::IntDomain;

// ---- The row of the entry tells exactly what the state is in which a run begins.

/// Objects of static storage, cleared and initialized, and literals.
pub fn start_is_exact<I: IntDomain>()
    ensures { spec.StartIsExactEverywhere I.lattice I.numbers I.stands }
{}

// ---- The rows along the one run of a plain program are an inductive map, which admits no more than the run
// violates.

/// Where the laws on single instructions hold, and the fit to own rows changes nothing.
pub fn maps_admit_only_the_run<I: IntDomain>()
    ensures { spec.MapsAdmitOnlyTheRun I.lattice I.numbers I.stands }
{}

// ---- Copies of structs between places of structs of that type.

/// A copy of a struct to where a pointer points to from where another one does.
pub fn copies_are_exact<I: IntDomain>()
    ensures { spec.CopiesAreExactEverywhere I.lattice I.numbers I.stands }
{}
