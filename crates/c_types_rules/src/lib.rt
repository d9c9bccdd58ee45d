//! Rules of types and constants, and the search for recursive calls.
#![tactic(auto)]

pub mod call_cycles;
pub mod rules;
