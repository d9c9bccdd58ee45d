//! Tests of the grammar and of the syntactic rules.
#![tactic(auto)]

pub mod grammar;
pub mod syntactic_pairs;
