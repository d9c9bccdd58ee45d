//! Theorems: the control-flow program, with calls inlined, simulates its templates.
#![tactic(auto)]

mod theorems;

pub use theorems::{
    checked_runs_are_the_same, entries_have_locals, functions_are_labelled, functions_are_regular,
    inlined_runs_are_the_same, labels_stand_once, laid_runs_are_the_same,
    lowered_runs_are_the_same, names_are_there, normalized_runs_are_the_same,
    normalized_runs_return_alike, regular_jumps_stand, scopes_are_apart, scopes_are_own,
    switches_are_on_integers, terms_have_room, well_formed_programs_are_low,
};
