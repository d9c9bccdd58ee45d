//! Lowering of statements and of whole functions to templates.
#![tactic(auto)]

pub mod functions;
pub mod statements;
