//! Theorems: operations of the value domains are monotone and sound.
#![tactic(auto)]

pub mod intervals;
pub mod values;
