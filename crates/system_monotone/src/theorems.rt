//! Theorems: the system of flow equations is monotone, and what the least map admits every inductive map admits.
ghost use Rattle.system_monotone.specs.Theorems as spec;

use cc_base::IntDomain;
use transfer_system::bounded_rows::Bounded;

// ---- What a map of a program's rows admits, each larger one admits, where the program's library calls and copies
// of structs grow with the row.

/// What the least inductive map of intervals of a well-formed program admits, each inductive map admits: of a program whose
/// library calls and copies of structs grow with the row, and so of a regular one.
pub fn least_maps_admit_least()
    ensures programs { spec.LeastMapsOfProgramsAdmitLeast }
    ensures regular { spec.LeastMapsOfRegularProgramsAdmitLeast }
{}

// ---- Writes of library calls that grow with the row, over any domain of integers whose operations do.

/// A longer text that is written to more places of a larger row leaves a larger row, an own one of consistent
/// pointer parts. So does a text that is written to the larger row alone, where nothing is known of first zeros
/// behind it.
pub fn text_writes_are_monotone<I: IntDomain>()
    ensures both { spec.TextWritesOfBothAreMonotone I.lattice I.numbers }
    ensures alone { spec.LoneTextWritesAreMonotone I.lattice I.numbers }
{}

/// A call of `strcpy`, `strncpy` or `strcat` in a larger row leaves a larger row, an own one of consistent pointer
/// parts, and may violate each rule that it may violate in a smaller one.
pub fn text_calls_are_monotone<I: IntDomain>()
    ensures { spec.TextCallsAreMonotone I.lattice I.numbers }
{}

/// A call of `fgets` in a larger row goes on where it does in a smaller one, may violate each rule that it may
/// violate there, and leaves a larger row where there is a line.
pub fn line_calls_are_monotone<I: IntDomain>()
    ensures { spec.LineCallsAreMonotone I.lattice I.numbers }
{}

/// A call of `memset` in a larger row leaves a larger row, an own one of consistent pointer parts, and may violate
/// each rule that it may violate in a smaller one.
pub fn fills_are_monotone<I: IntDomain>()
    ensures { spec.FillsAreMonotone I.lattice I.numbers }
{}

/// More bytes that are copied to more places of a larger row leave a larger row, an own one of consistent pointer
/// parts.
pub fn copies_are_monotone<I: IntDomain>()
    ensures { spec.CopiesAreMonotone I.lattice I.numbers }
{}

/// A call of `memcpy` or `memmove` (7.24.2.1, 7.24.2.2 of ISO/IEC 9899:2011) in a larger row leaves a larger row, an own
/// one of consistent pointer parts, and may violate each rule that it may violate in a smaller one.
pub fn memory_calls_are_monotone<I: IntDomain>()
    ensures { spec.MemoryCallsAreMonotone I.lattice I.numbers }
{}

// ---- Copies of structs grow with the row, over any domain of integers whose operations do.

/// A copy of a struct through larger pointers leaves of a larger row a larger one, an own one of consistent pointer parts,
/// where the leaves of each struct share no bytes and lie within 2^62 of them.
pub fn struct_copies_are_monotone<I: IntDomain>()
    ensures { spec.StructCopiesAreMonotone I.lattice I.numbers }
{}

// ---- Well-formed programs meet the premises of the laws of their steps, so the systems of those whose library
// calls and copies of structs grow with the row are monotone.

/// The rows of a well-formed program are those of its bases and temporaries, and its bases are regular.
pub fn well_formed_programs_are_laid_out()
    ensures { spec.WellFormedProgramsAreLaidOut }
{}

/// The system of a well-formed program is monotone where its library calls and its copies of structs are, so a solver's map is
/// the least inductive one.
pub fn well_formed_programs_are_monotone<I: Bounded>()
    ensures { spec.WellFormedProgramsAreMonotone I.lattice I.numbers }
{}

/// The system of every well-formed program is monotone, where the leaves of the structs that it copies share no bytes.
pub fn programs_are_monotone<I: Bounded>()
    ensures { spec.ProgramsAreMonotone I.lattice I.numbers }
{}

/// The thresholds of a well-formed program go from a number that is not below -2^64 up to 2^64 and have 0, so rows of intervals
/// are cut between them in order.
pub fn thresholds_are_near()
    ensures { spec.ThresholdsAreNear }
{}

/// The system over intervals is monotone, of a well-formed program whose library calls and copies of structs grow with the
/// row, and so of one where the leaves of the structs that it copies share no bytes.
pub fn systems_of_intervals_are_monotone()
    ensures programs { spec.IntervalSystemsAreMonotone }
    ensures spread { spec.SpreadIntervalSystemsAreMonotone }
{}

/// The structs of a well-formed program whose members stand apart have leaves that share no bytes.
pub fn apart_members_are_spread()
    ensures { spec.ApartMembersAreSpread }
{}

/// The system over intervals of a regular program and list is monotone.
pub fn regular_programs_are_monotone()
    ensures { spec.RegularProgramsAreMonotone }
{}

/// What edges leave of own rows is of the program's cells, with bounds from -2^64 to 2^64 and pointers into its bases; and the
/// fit to own rows leaves such a row as it is, where numbers lie between the ends of the list and offsets are counts.
pub fn edges_leave_program_rows<I: Bounded>()
    ensures left { spec.EdgesLeaveProgramRows I.lattice I.numbers }
    ensures kept { spec.EdgesKeepProgramRows I.lattice I.numbers }
{}
