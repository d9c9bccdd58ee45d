//! Theorems: what all inductive maps of a plain program admit, its run violates.
#![tactic(auto)]

mod theorems;

pub use theorems::{copies_are_exact, maps_admit_only_the_run, start_is_exact};
