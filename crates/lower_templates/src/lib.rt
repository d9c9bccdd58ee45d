//! Templates (the code of one function before inlining), the worklist that makes them, and views of programs for contracts.
#![tactic(auto)]

pub mod views;
pub mod worklist;
