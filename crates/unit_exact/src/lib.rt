//! Theorems: the analysis of a plain unit reports just what its run violates.
#![tactic(auto)]

mod theorems;

pub use theorems::{
    analyses_find_just_the_run, checked_cases_are_distinct, checked_units_find_just_their_run,
    looped_units_are_exact, plain_units_are_exact, programs_switch_apart, templates_switch_apart,
    unit_switches_are_apart, unrolled_programs_are_exact, unrolled_units_are_exact,
};
