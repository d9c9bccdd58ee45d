//! The memory in which an interpreted run begins, and the entry's arguments.
#![tactic(auto)]

pub mod inputs;
pub mod starts;
