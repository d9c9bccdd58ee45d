//! Theorems: transfer functions are sound, and an invariant map contains every reachable state.
ghost use Rattle.transfer_sound.specs.Theorems as spec;

use cc_base::IntDomain;
use transfer_system::bounded_rows::Bounded;

// ---- Where a row stands for a state, the row behind an instruction that clears an object stands for the state
// behind it.

/// All bytes of an object become 0.
pub fn clear_steps_are_sound<I: IntDomain>()
    ensures { spec.ClearStepsAreSoundEverywhere I.lattice I.numbers I.stands }
{}

// ---- Where a row stands for the state at the end of a block, the row that comes along the edge that the run
// takes stands for the state behind it. There is none only where no run takes the edge.

/// Jumps, branches, switches and the end of a run, where tests and cases that name objects are sound.
pub fn plain_ends_are_sound<I: IntDomain>()
    ensures { spec.PlainEndsAreSoundEverywhere I.lattice I.numbers I.stands }
{}

// ---- Where a row stands for a state, the row behind an instruction that enters an object stands for the state
// behind it: the object has a fresh instance, whose bytes are indeterminate.

/// The lifetime of an object begins.
pub fn enter_steps_are_sound<I: IntDomain>()
    ensures { spec.EnterStepsAreSoundEverywhere I.lattice I.numbers I.stands }
{}

// ---- A map from blocks to rows covers each run of a well-formed program: the row before the next instruction
// stands for the state there, and what the run has violated is admitted. This is by induction over the steps of a
// run, from laws on single instructions, of which some are proved elsewhere and some are open.

/// Where each instruction is sound, where the map begins with the states in which runs begin and is carried along
/// edges, and where operands are of their instructions' types.
pub fn runs_are_covered<I: IntDomain>()
    ensures { spec.RunsAreCovered I.lattice I.numbers I.stands }
{}

/// Where operands are of their instructions' types in each state for which the rows of the map stand, they are so in each run,
/// and the map covers it.
pub fn runs_are_typed_by_rows<I: IntDomain>()
    ensures { spec.RunsAreTypedByRows I.lattice I.numbers I.stands }
{}

// ---- Rows that are larger stand for more, and inductive maps are carried along edges.

/// Where no cell of the larger row is mixed.
pub fn larger_rows_stand_for_more<I: IntDomain>()
    ensures { spec.LargerRowsStandForMoreEverywhere I.lattice I.numbers I.stands }
{}

/// Where the row that comes along an edge stands for a state, so does the row that the map has for the block that
/// the edge enters.
pub fn inductive_maps_are_carried<I: Bounded>()
    ensures { spec.InductiveMapsAreCarriedEverywhere I.lattice I.numbers I.stands }
{}

/// Where the row of the system's entry stands for the states in which runs begin, so does the row that the map has there.
pub fn inductive_maps_begin<I: Bounded>()
    ensures { spec.InductiveMapsBeginEverywhere I.lattice I.numbers I.stands }
{}

// ---- Where a row stands for a state, the row behind an instruction that leaves an object stands for the state
// behind it: pointers into the object have ended.

/// The lifetime of an object ends.
pub fn leave_steps_are_sound<I: IntDomain>()
    ensures { spec.LeaveStepsAreSoundEverywhere I.lattice I.numbers I.stands }
{}

// ---- Where a row stands for a state, the row behind a load or a store stands for the state behind it, there is
// none only where no run goes on, and each rule that the instruction violates is admitted.

/// Loads of all scalars.
pub fn load_steps_are_sound<I: IntDomain>()
    ensures { spec.LoadStepsAreSoundEverywhere I.lattice I.numbers I.stands }
{}

/// Stores of all scalars, with the value that is kept.
pub fn store_steps_are_sound<I: IntDomain>()
    ensures { spec.StoreStepsAreSoundEverywhere I.lattice I.numbers I.stands }
{}

// ---- Where a row stands for a state, the row behind an instruction on an object as a whole stands for the state
// behind it, there is none only where no run goes on, and each rule that the instruction violates is admitted.

/// The contents of an object are forgotten.
pub fn forget_steps_are_sound<I: IntDomain>()
    ensures { spec.ForgetStepsAreSoundEverywhere I.lattice I.numbers I.stands }
{}

// ---- The premise on operands follows from what a computation over the rows of a map decides.

/// Operands that lie within their types in a row are of their types in each state for which it stands.
pub fn typed_rows_type_operands<I: IntDomain>()
    ensures { spec.TypedRowsTypeOperands I.lattice I.numbers I.stands }
{}

/// So they are in each run with which such a map begins and which it carries on, and the map covers the run.
pub fn typed_maps_type_runs<I: IntDomain>()
    ensures { spec.TypedMapsTypeRuns I.lattice I.numbers I.stands }
{}

// ---- Where a row stands for a state that agrees with a test, what the test makes of the row stands for what it
// makes of the state. There is no row only where no state agrees with the test.

/// Relations of integers, where each object that is named is one scalar; both sides may name one object.
pub fn integer_tests_are_sound<I: IntDomain>()
    ensures { spec.IntegerTestsAreSoundEverywhere I.lattice I.numbers I.stands }
{}

/// Cases of a switch, where the object that is switched on is one integer.
pub fn cases_are_sound<I: IntDomain>()
    ensures { spec.CasesAreSoundEverywhere I.lattice I.numbers I.stands }
{}

/// Relations of pointers, other than of an object against a null constant.
pub fn pointer_tests_are_sound<I: IntDomain>()
    ensures { spec.PointerTestsAreSoundEverywhere I.lattice I.numbers I.stands }
{}

/// Relations of a pointer object and a null constant.
pub fn null_tests_are_sound<I: IntDomain>()
    ensures { spec.NullTestsAreSoundEverywhere I.lattice I.numbers I.stands }
{}

// ---- Where a row stands for a state, the row behind an instruction that touches no memory stands for the state
// behind it, there is none only where no run goes on, and each rule that the instruction violates is admitted.
// Operands are supposed to be of the types of their instructions, which the machine does not ask.

/// Constants, operators on one and two integers, comparisons, truth and conversions.
pub fn value_steps_are_sound<I: IntDomain>()
    ensures { spec.ValueStepsAreSoundEverywhere I.lattice I.numbers I.stands }
{}

/// Addresses of objects, pointers to parts, moved pointers, differences and relations of pointers.
pub fn pointer_steps_are_sound<I: IntDomain>()
    ensures { spec.PointerStepsAreSoundEverywhere I.lattice I.numbers I.stands }
{}
