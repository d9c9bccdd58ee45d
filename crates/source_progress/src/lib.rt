//! Theorem: a run is stuck at most at a step that asks for a value.
#![tactic(auto)]

pub mod progress;
pub mod stack_kinds;
