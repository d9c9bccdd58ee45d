//! Theorems: templates simulate the terms of the source; the simulation relation.
#![tactic(auto)]

pub mod instructions;
pub mod scopes;
pub mod simulation_relation;
pub mod small_steps;
pub mod terms;
pub mod worklists;
