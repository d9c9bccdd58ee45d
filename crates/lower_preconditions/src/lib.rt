//! Decidable checks of a unit before it is lowered.
#![tactic(auto)]

pub mod objects;
pub mod units;
