//! Theorems: each run of a checked unit is a run of its control-flow program.
ghost use Rattle.simulation_units.specs.Theorems as spec;

use simulation_layout::{
    checked_runs_are_the_same, functions_are_labelled, functions_are_regular, names_are_there,
    regular_jumps_stand, scopes_are_apart, switches_are_on_integers,
};
use simulation_statements::entry::{entries_are_simulated, functions_are_simulated};
use source_items::returns::called_functions_leave_all;
use source_preservation::{looks_mark, looks_scope, looks_stand, runs_are_never_stuck};

// ---- The entry is called by nothing that it reaches.

/// No function that the entry reaches calls the entry, where the functions that it reaches were counted. (A function that
/// the entry does not reach may call it.)
pub fn entries_are_not_called()
    ensures { spec.EntriesAreNotCalled }
{}

// ---- Each run of a unit that passes the looks at its terms and scopes is one of its program.

/// No run of a unit that passes the looks is ever stuck.
pub fn looked_units_are_never_stuck()
    ensures { spec.LookedUnitsAreNeverStuck }
{
    looks_mark();
    looks_scope();
    looks_stand();
    runs_are_never_stuck();
}

/// Each run of a checked unit that passes the looks and whose functions are regular is one of the well-formed program
/// that it is lowered to, whatever the outside gives: after any number of turns both have come to the same.
pub fn looked_runs_are_program_runs()
    ensures { spec.LookedRunsAreProgramRuns }
{
    looked_units_are_never_stuck();
    unit_runs_are_program_runs();
}

// ---- The functions of a regular unit suit.

/// The statements of each function of a regular unit are such as the laws on runs ask.
pub fn regular_functions_suit()
    ensures { spec.RegularFunctionsSuit }
{}

// ---- A called function that returns in the templates names no object where it names none in the source.

/// Turns of the source that are no step, no call and no return end: behind so many of them a run has stopped, or one of these
/// comes next.
pub fn quiet_turns_end()
    ensures { spec.QuietTurnsEnd }
{}

/// Where all functions follow in their templates, and in the source each called function that has nothing left to do names no
/// object any more, so it is with each called function that has no pieces left in the templates, behind any number of steps.
pub fn returns_are_simulated()
    ensures { spec.ReturnsAreSimulated }
{}

// ---- The run of a checked unit ends where its program has no loops.

/// Where a checked unit whose functions are regular is lowered to a well-formed program in which no edge enters a block from
/// that block or a later one, the run of the unit stops after some number of turns, whatever comes from the outside.
pub fn units_without_loops_end()
    ensures { spec.UnitsWithoutLoopsEnd }
{
    functions_are_regular();
    functions_are_labelled();
    names_are_there();
    switches_are_on_integers();
    scopes_are_apart();
    regular_functions_suit();
    regular_jumps_stand();
    entries_are_not_called();
    called_functions_leave_all();
    entries_are_simulated();
    functions_are_simulated();
    returns_are_simulated();
    checked_runs_are_the_same();
}

// ---- Each run of a checked unit is one of its program.

/// Where a checked unit whose functions are regular is lowered to a well-formed program, each run of the unit is one of the
/// program: whatever comes from the outside, after any number of turns of the unit there is a number of steps of the
/// program after which both have come to the same memory with the same draws left, have violated the same rules at the
/// same places in the same order, and go on or have stopped for the same reason, unless the run of the unit is stuck.
pub fn unit_runs_are_program_runs()
    ensures { spec.UnitRunsAreProgramRuns }
{
    functions_are_regular();
    functions_are_labelled();
    names_are_there();
    switches_are_on_integers();
    scopes_are_apart();
    regular_functions_suit();
    regular_jumps_stand();
    entries_are_not_called();
    called_functions_leave_all();
    entries_are_simulated();
    functions_are_simulated();
    returns_are_simulated();
    checked_runs_are_the_same();
}
