//! Transfer functions of instructions.
#![tactic(auto)]

pub mod instructions;
pub mod values;
