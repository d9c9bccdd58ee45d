//! Theorems: operations of the abstract store are monotone.
#![tactic(auto)]

pub mod layouts;
pub mod operations;
pub mod shapes;
pub mod structs;
pub mod tags;
