//! The arena of rows, and the solver that computes the least post-fixpoint.
#![tactic(auto)]

pub mod pool;
pub mod solver;
