//! Counts of a unit's control-flow program, its abstract locations and their initial values.
#![tactic(auto)]

pub mod bases;
pub mod counts;
