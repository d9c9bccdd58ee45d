//! The interpreter's library functions.
#![tactic(auto)]

pub mod calls;
pub mod memory;
pub mod strings;
