//! Theorems: the analysis of a plain unit reports just what its run violates.
ghost use Rattle.unit_exact.specs.Theorems as spec;

use simulation_units::{
    looked_runs_are_program_runs, looked_units_are_never_stuck, units_without_loops_end,
};

// ---- What an analysis finds of a plain program is just what its one run violates. What is supposed of the
// program and of its run is named in `specs/Analyses/SingleAnalyses.antt`.

/// The pairs that an analysis finds are just those that the run of a unit under no numbers of the outside violates, where the
/// program begins with what is in the unit's tables.
pub fn analyses_find_just_the_run()
    ensures { spec.AnalysesFindJustTheRun }
{}

/// So are those of a checked unit whose program it is.
pub fn checked_units_find_just_their_run()
    ensures { spec.CheckedUnitsFindJustTheirRun }
{}

// ---- Case edges of one block have distinct values.

/// Where the switches of a function have distinct cases (6.8.4.2p3), so do the ways on of each block of its template, and
/// the way for all other values lists each of them.
pub fn templates_switch_apart()
    ensures { spec.TemplatesSwitchApart }
{}

/// The same of the edges of the program that a unit is lowered to, with every call put in at its place.
pub fn programs_switch_apart()
    ensures { spec.ProgramsSwitchApart }
{}

// ---- Case labels of checked units.

/// Typing refuses a case label of a value that its switch has already (6.8.4.2p3), so of a checked unit each switch has
/// labels of distinct values, at any depth of any function.
pub fn checked_cases_are_distinct()
    ensures { spec.CheckedCasesAreDistinct }
{}

// ---- Switches of programs.

/// Of each program that a checked unit is lowered to, no two case edges of one block have one value, and the way for other
/// values lists each: typing refuses a second label of a value (6.8.4.2p3), and lowering adds none.
pub fn unit_switches_are_apart()
    ensures { spec.UnitSwitchesAreApart }
{
    checked_cases_are_distinct();
    programs_switch_apart();
}

// ---- What an analysis finds of a checked plain unit is just what the run of the unit under no numbers of the
// outside violates, to its end. What is supposed of the unit's program is named in `specs/Units/SingleUnits.antt`.

/// The run comes to an end, as there are no loops.
pub fn plain_units_are_exact()
    ensures { spec.PlainUnitsAreExact }
{
    looked_runs_are_program_runs();
    looked_units_are_never_stuck();
    unit_switches_are_apart();
    units_without_loops_end();
}

// ---- Of a plain unit an analysis of the program with turns unrolled finds just what the unit's run violates, as
// one of the program itself does. What is supposed of the unit's program is in `specs/Units/SingleUnits.antt`.

/// Unrolling keeps what the laws on plain units suppose of a program and of its run.
pub fn unrolled_programs_are_exact()
    ensures { spec.UnrolledProgramsAreExact }
{}

/// Each pair that is found is violated by the unit's run under no numbers of the outside, and each that it violates is found.
pub fn unrolled_units_are_exact()
    ensures { spec.UnrolledUnitsAreExact }
{
    looked_runs_are_program_runs();
    looked_units_are_never_stuck();
    unit_switches_are_apart();
    units_without_loops_end();
}

/// So it is of a unit that is plain but for its loops and jumps back, whose run ends and takes no more turns of them than are
/// unrolled.
pub fn looped_units_are_exact()
    ensures { spec.LoopedUnitsAreExact }
{
    looked_runs_are_program_runs();
    looked_units_are_never_stuck();
    unit_switches_are_apart();
}
