//! The memory model: objects byte by byte, and what each step does to them, violates, or ends.
#![tactic(auto)]

pub mod effects;
pub mod memory;
