//! Shapes of abstract locations, and counts of a function's instructions and objects.
#![tactic(auto)]

pub mod counts;
pub mod shapes;
