//! Tests of lowering: whole control-flow programs as text.
#![tactic(auto)]

pub mod program_text;
pub mod programs;
