//! Theorems on the pending work of the source semantics: stack kinds, liveness of objects, returns.
#![tactic(auto)]

pub mod liveness;
pub mod operations;
pub mod returns;
pub mod stack_kinds;
