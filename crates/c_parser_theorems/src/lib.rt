//! Theorems: tokens are one unit at most, and the parser finds each unit that derives.
#![tactic(auto)]

pub mod complete_declarations;
pub mod complete_expressions;
pub mod complete_units;
pub mod unique_expressions;
pub mod unique_units;
