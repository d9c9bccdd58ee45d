//! Theorems: from exact abstract states, transfer functions give exact ones.
ghost use Rattle.transfer_exact.specs.Theorems as spec;

use cc_base::IntDomain;

// ---- Where a row tells exactly what a state is, the row behind an instruction on memory tells the state behind
// it, there is none where the run stops, and each rule that the step admits is violated.

/// Loads of scalars of the kind of what lies there.
pub fn loads_are_exact<I: IntDomain>()
    ensures { spec.LoadsAreExactEverywhere I.lattice I.numbers I.stands }
{}

/// Stores of scalars of the kind of what lies there.
pub fn stores_are_exact<I: IntDomain>()
    ensures { spec.StoresAreExactEverywhere I.lattice I.numbers I.stands }
{}

/// Objects whose contents are forgotten.
pub fn forgets_are_exact<I: IntDomain>()
    ensures { spec.ForgetsAreExactEverywhere I.lattice I.numbers I.stands }
{}

/// Objects whose bytes become 0.
pub fn clears_are_exact<I: IntDomain>()
    ensures { spec.ClearsAreExactEverywhere I.lattice I.numbers I.stands }
{}

// ---- Calls that end the program, or give a number for one without the outside.

/// `exit`, `abort`, `putchar` and the functions on characters.
pub fn calls_are_exact<I: IntDomain>()
    ensures { spec.CallsAreExactEverywhere I.lattice I.numbers I.stands }
{}

// ---- Which edges of a block a row that tells the state takes.

/// Behind a jump, a branch or a switch the row along the edge that is taken tells the state behind, and along each other edge
/// there is none, where the tests and the cases of the program's edges are told.
pub fn edges_are_exact<I: IntDomain>()
    ensures { spec.EdgesAreExactEverywhere I.lattice I.numbers I.stands }
{}

/// Tests of pointers other than of an object against a null constant.
pub fn pointer_tests_are_exact<I: IntDomain>()
    ensures { spec.PointerTestsAreExactEverywhere I.lattice I.numbers I.stands }
{}

/// Tests of an object that is one pointer against a null constant.
pub fn null_tests_are_exact<I: IntDomain>()
    ensures { spec.NullTestsAreExactEverywhere I.lattice I.numbers I.stands }
{}

/// Cases of a switch on an object that is one integer.
pub fn cases_are_exact<I: IntDomain>()
    ensures { spec.CasesAreExactEverywhere I.lattice I.numbers I.stands }
{}

// ---- Where a row tells exactly what a state is, the row behind an instruction that begins or ends the lifetime
// of an object tells the state behind it.

/// Objects whose lifetime begins.
pub fn enters_are_exact<I: IntDomain>()
    ensures { spec.EntersAreExactEverywhere I.lattice I.numbers I.stands }
{}

/// Objects whose lifetime ends.
pub fn leaves_are_exact<I: IntDomain>()
    ensures { spec.LeavesAreExactEverywhere I.lattice I.numbers I.stands }
{}

// ---- Instructions that make pointers, move them and compare them, in a program without allocations and folded
// arrays.

/// Addresses of objects, pointers to parts, moved pointers, differences and relations of pointers.
pub fn pointer_steps_are_exact<I: IntDomain>()
    ensures { spec.PointerStepsAreExactEverywhere I.lattice I.numbers I.stands }
{}

// ---- Where a row tells exactly what a state is, the row behind a text that is spelled tells the state behind it.

/// Texts that a declaration writes into an array of characters.
pub fn spells_are_exact<I: IntDomain>()
    ensures { spec.SpellsAreExactEverywhere I.lattice I.numbers I.stands }
{}

// ---- What a test on an edge makes of a row that tells the state.

/// Tests on integers: of two sides, or of an object with itself.
pub fn integer_tests_are_exact<I: IntDomain>()
    ensures { spec.IntegerTestsAreExactEverywhere I.lattice I.numbers I.stands }
{}

// ---- Where a row tells exactly what a state is, the row behind an instruction tells the state behind it, there
// is none where the run stops, and each rule that the step admits is violated.

/// Operations on intervals of one number give the number that the machine gives, and none where it gives none.
pub fn intervals_are_exact()
    ensures { spec.IntervalsAreExact }
{}

/// Constants, operators on one and two integers, comparisons, truth and conversions.
pub fn value_steps_are_exact<I: IntDomain>()
    ensures { spec.ValueStepsAreExactEverywhere I.lattice I.numbers I.stands }
{}
