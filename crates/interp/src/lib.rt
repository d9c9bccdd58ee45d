//! The interpreter: one run of a checked unit over given inputs.
#![tactic(auto)]

pub mod machine;
pub mod runs;
