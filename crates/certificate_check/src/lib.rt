//! Reading a certificate, and checking that its map is inductive.
#![tactic(auto)]

pub mod closed_maps;
pub mod reading;
pub mod verdicts;
