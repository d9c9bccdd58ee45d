//! Theorems: each run of a checked unit is a run of its control-flow program.
#![tactic(auto)]

mod theorems;

pub use theorems::{
    entries_are_not_called, looked_runs_are_program_runs, looked_units_are_never_stuck,
    quiet_turns_end, regular_functions_suit, returns_are_simulated, unit_runs_are_program_runs,
    units_without_loops_end,
};
