//! The concretization of abstract states, and theorems: operations of the abstract store are sound.
#![tactic(auto)]

pub mod chars;
pub mod concretization;
pub mod operations;
pub mod programs;
pub mod regions;
