//! Theorems: transfer functions of instructions and edges are monotone.
#![tactic(auto)]

pub mod edges;
pub mod library;
pub mod values;
