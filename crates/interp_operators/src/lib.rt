//! The interpreter's operators on integers, and its tests of edges.
#![tactic(auto)]

pub mod numbers;
pub mod tests;
