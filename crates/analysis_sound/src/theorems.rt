//! Theorems: an analysis reports each violation of each run.
ghost use Rattle.analysis_sound.specs.Theorems as spec;

use cc_base::IntDomain;

// ---- What the definition of an analysis says of the runs of a program, over all laws on single instructions.
// What is supposed beside an analysis is named in the theorem's definition, in `specs/`.

/// Each rule that a run of the program violates at a place is among what an analysis finds, where the row of the entry stands
/// for the start of the unit.
pub fn analyses_find_every_run()
    ensures { spec.AnalysesFindEveryRun }
{}

/// Each call that allocates has a site.
pub fn calls_have_sites()
    ensures { spec.CallsHaveSitesEverywhere }
{}

/// Each text that a program spells lies over characters.
pub fn texts_lie_over_characters()
    ensures { spec.TextsLieOverCharactersEverywhere }
{}

/// The tests and the cases of edges are such as are proved sound.
pub fn tests_are_proved()
    ensures { spec.TestsAreProvedEverywhere }
{}

/// Where each call of `fgets` ends its block, the analysis is sound on all instructions of the program.
pub fn no_step_is_open<I: IntDomain>()
    ensures { spec.NoStepIsOpenAnywhere I.lattice I.numbers I.stands }
{}

// ---- All laws on single instructions that are proved, in one statement: a map from blocks to rows that begins
// with the states in which runs begin, and is carried along edges, covers each run of a well-formed program, where
// the analysis is sound on the instructions on which that is open, and on the tests of edges that are not among
// those that are proved.

/// Open is `fgets` as any other call, which no program has; each text that the program spells is asked to lie over
/// characters, each call that allocates to have a site, and a program that copies a struct to have the leaves of each
/// struct by number as its type has them.
pub fn runs_are_covered_but_for_open_steps<I: IntDomain>()
    ensures { spec.RunsAreCoveredButForOpenSteps I.lattice I.numbers I.stands }
{}

// ---- What an analysis says of the runs of units. What is supposed beside an analysis is named in each theorem's
// definition, in `specs/`.

/// Each rule that a run of a unit violates at a place is among what an analysis of the program finds, where the program
/// begins with what is in the unit's tables.
pub fn unit_runs_are_found()
    ensures { spec.UnitRunsAreFound }
{}

/// So is each rule that a run of a unit violates by its lowered program.
pub fn lowered_runs_are_found()
    ensures { spec.LoweredRunsAreFound }
{}

/// And each rule that a run of a checked unit violates by its lowered program, also where the program is analysed with
/// turns unrolled: the entry of such a unit takes integers.
pub fn checked_runs_are_found()
    ensures runs { spec.CheckedRunsAreFound }
    ensures turned { spec.FindsUnrolledPairsOfChecked }
{}

/// There is a program, with a loop over a string and an allocation, of which all premises hold: a run of it reads behind
/// its string, and each analysis of it finds that.
pub fn premises_can_be_met()
    ensures { spec.PremisesCanBeMet }
{}

/// Each rule that a run of a program violates at a place is among what an analysis of the program with turns unrolled
/// finds.
pub fn unrolled_analyses_are_sound()
    ensures { spec.FindsUnrolledPairs }
{}
