//! Certificates of control-flow programs.
#![tactic(auto)]

pub mod programs;
pub mod types;
