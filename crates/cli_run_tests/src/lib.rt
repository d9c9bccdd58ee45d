//! Tests of whole runs of the program, and of SARIF.
#![tactic(auto)]

pub mod runs;
pub mod sarif_reports;
