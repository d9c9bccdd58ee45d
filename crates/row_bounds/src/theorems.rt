//! Theorems: transfer functions keep abstract states within their bounds.
ghost use Rattle.row_bounds.specs.Theorems as spec;

use cc_base::IntDomain;
use transfer_system::bounded_rows::Bounded;

// ---- What an edge leaves of an own row is an own row, so the fit to own rows changes nothing: the edges of the
// system take a row where the steps take it. The list of numbers begins at or below the least number of any
// integer type.

/// What an edge leaves of an own row is an own row.
pub fn edges_leave_own_rows<I: Bounded>()
    ensures { spec.EdgesLeaveOwnRows I.lattice I.numbers }
{}

/// So an edge of the system takes an own row where the steps take it, and the inductive maps of the system are those of the one
/// without the fit.
pub fn fits_change_nothing<I: Bounded>()
    ensures edges { spec.FitsChangeNoEdge I.lattice I.numbers }
    ensures maps { spec.FitsChangeNoMap I.lattice I.numbers }
{}

/// The same of every well-formed program, where the leaves of the structs that it copies share no bytes.
pub fn programs_fit_nothing<I: Bounded>()
    ensures left { spec.ProgramsLeaveNothingToFit I.lattice I.numbers }
    ensures edges { spec.ProgramsFitNoEdge I.lattice I.numbers }
    ensures maps { spec.ProgramsFitNoMap I.lattice I.numbers }
{}

/// The thresholds of a well-formed program reach the least number of any integer type.
pub fn thresholds_reach_types()
    ensures { spec.ThresholdsReachTypes }
{}

/// The system over intervals of a regular program and a list that reaches the types.
pub fn regular_programs_fit_nothing()
    ensures edges { spec.RegularProgramsFitNoEdge }
    ensures maps { spec.RegularProgramsFitNoMap }
{}

/// It is false of lists that do not reach them: the list of 0 and 2^64 is a near one, and the fit to it leaves no number of -1.
pub fn short_lists_cut()
    ensures near { spec.ShortListsAreNear }
    ensures cut { spec.ShortListsCutRows }
{}

// ---- The row with which a program begins is an own row before it is fitted, where its texts are bytes: so the
// fit to own rows changes nothing at the entry either.

/// What the start of a well-formed program makes in a row of its width is an own row, and the row of its system's entry
/// is what the start makes.
pub fn programs_start_own<I: Bounded>()
    ensures own { spec.ProgramsStartOwnOwn I.lattice I.numbers }
    ensures fits { spec.ProgramsStartOwnFits I.lattice I.numbers }
{}

/// Of a regular program, over intervals: the row that its start makes is an own row.
pub fn start_rows_are_own()
    ensures { spec.StartRowsAreOwn }
{}

/// So the fit changes nothing: the row of the system's entry is the one that the start makes, where there is one, and
/// the inductive maps of the system are those of the system without any fit.
pub fn start_fits_change_nothing()
    ensures row { spec.StartFitsChangeNothingRow }
    ensures maps { spec.StartFitsChangeNoMap }
{}

/// It is false of texts that are no bytes: there is a program that is regular but for a character of 2^65, whose start
/// makes no own row.
pub fn wide_texts_are_cut()
    ensures reaches { spec.WideTextsReachTypes }
    ensures cut { spec.WideTextsAreCutInRows }
{}

/// Nor need a regular program have a start: a static initializer of 2^70 has no place in an int.
pub fn regular_programs_may_have_no_start()
    ensures { spec.RegularProgramsMayHaveNoStart }
{}

// ---- Where the numbers in a row are at least a floor, and its offsets and lengths at least 0, so are those in
// the row that an edge leaves of it. The floor is at most the least number of any integer type.

/// The instructions and edges of a program whose numbers are of integer types, and the row of the entry where
/// addresses lie within their bounds.
pub fn steps_keep_floors<I: IntDomain>()
    ensures { spec.StepsKeepFloorsEverywhere I.lattice I.numbers }
{}

// ---- Where the numbers in a row are at least a floor, and its offsets and lengths at least 0, so are those in
// the row behind each call of the store. The floor is at most the least number of any integer type.

/// Loads, stores and copies of structs.
pub fn accesses_keep_floors<I: IntDomain>()
    ensures { spec.AccessesKeepFloorsEverywhere I.lattice I.numbers }
{}

/// Objects that are entered, left, cleared, made of a text, freed or allocated.
pub fn objects_keep_floors<I: IntDomain>()
    ensures { spec.ObjectsKeepFloorsEverywhere I.lattice I.numbers }
{}
