//! Tests of the domains, of the solver and of diagnostics.
#![tactic(auto)]

pub mod diagnostics;
pub mod domains;
pub mod solver;
