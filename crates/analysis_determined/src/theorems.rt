//! Theorems: the analysis is determined by its program; unrolling keeps runs and adds no diagnostic.
ghost use Rattle.analysis_determined.specs.Theorems as spec;

// ---- Programs with the same view have the same system and the same diagnostics.

/// Programs with the same view have the same system, their maps admit the same pairs, and their analyses with the numbers
/// of one list give the same diagnostics.
pub fn analyses_hang_on_views()
    ensures systems { spec.OneSystem }
    ensures pairs { spec.OneAdmission }
    ensures answers { spec.OneAnalysis }
{}

// ---- The answer of an analysis is that of the least inductive map, whoever finds it.

/// An analysis finds just the pairs that every inductive map of the program's system admits, in order and each once.
pub fn analyses_are_exact()
    ensures { spec.AnalysesAreExact }
{}

/// The map of an analysis is the least inductive one, and each diagnostic is one that each inductive map admits.
pub fn analyses_are_least()
    ensures { spec.AnalysesAreLeast }
{}

/// What the least inductive map of a regular program admits is just what every inductive map admits.
pub fn least_maps_are_exact()
    ensures { spec.LeastMapsAreExact }
{}

/// Two least inductive maps of a system have the same rows and admit the same pairs, and two analyses of a program with the
/// numbers of one list give the same diagnostics.
pub fn two_solvers_agree()
    ensures maps { spec.MapsOfTwoSolversAgree }
    ensures answers { spec.AnswersOfTwoSolversAgree }
{}

/// An analysis of a well-formed program follows at most so many edges as its edges, heads, cells and temporaries, first zeros,
/// allocation states and bases and the numbers of the list call for.
pub fn steps_are_counted()
    ensures { spec.StepsAreCounted }
{}

// ---- A program has one list of thresholds, which hangs on its view alone.

/// Two ascending lists of the same numbers are the same list.
pub fn ascending_lists_are_one()
    ensures { spec.OneList }
{}

/// The same numbers have one ascending list of thresholds, and so have programs with the same view.
pub fn one_list_of_thresholds()
    ensures numbers { spec.OneThresholds }
    ensures views { spec.OneListOfThresholds }
{}

// ---- What the syntactic rules find hangs on the view of a unit alone.

/// Checked units with the same view have the same places.
pub fn places_hang_on_views()
    ensures { spec.SamePlaces }
{}

// ---- Unrolling turns of loops names nothing that is not named without it.

/// An inductive map of a program's system, put at every copy of the blocks, is inductive for the program with turns unrolled,
/// and admits there only what it admits of the program.
pub fn maps_are_copied()
    ensures inductive { spec.CopiedMapsAreInductive }
    ensures pairs { spec.CopiedMapsAdmitNoMore }
{}

/// Each pair that the analysis finds in a program with turns unrolled, it finds in the program.
pub fn unrolled_pairs_are_named()
    ensures { spec.UnrolledPairsAreNamed }
{}

// ---- A run of a program is one of the program with turns unrolled.

/// After any number of steps a run of a program and that of the program with turns unrolled, over the same draws, have the
/// same memory, the same draws left and the same violations, and both go on or both have stopped, for the same reason.
pub fn unrolled_runs_are_the_same()
    ensures { spec.UnrolledRunsAreTheSame }
{}

/// The blocks of a well-formed program have their edges, and these lead to blocks.
pub fn well_formed_programs_are_linked()
    ensures { spec.WellFormedProgramsAreLinked }
{}
