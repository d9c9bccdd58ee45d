//! The interval domain of integers.
#![tactic(auto)]

pub mod intervals;
pub mod numbers;
