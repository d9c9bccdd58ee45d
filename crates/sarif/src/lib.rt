//! Reports in the SARIF format, and a baseline of results that are known already.
#![tactic(auto)]

mod base_fault;
mod baseline;
mod fresh_diagnostics;
mod json_numbers;
mod json_values;
mod known_results;
mod report;
mod single_results;
mod streamed_results;
mod theorems;
mod uris;

pub use base_fault::BaseFault;
pub use baseline::read_sarif;
pub use fresh_diagnostics::fresh;
pub use known_results::Known;
pub use report::write_sarif;
pub use theorems::{reports_are_read_back, reports_hold_their_diagnostics, uris_are_read_back};
