//! Theorems: an analysis reports each violation of each run.
#![tactic(auto)]

mod theorems;

pub use theorems::{
    analyses_find_every_run, calls_have_sites, checked_runs_are_found, lowered_runs_are_found,
    no_step_is_open, premises_can_be_met, runs_are_covered_but_for_open_steps, tests_are_proved,
    texts_lie_over_characters, unit_runs_are_found, unrolled_analyses_are_sound,
};
