//! Preprocessing: the directives of 6.10 of ISO/IEC 9899:2011, included files, and the tokens of
//! a unit after translation phase 4.
#![tactic(auto)]

mod file_names;
mod file_paths;
mod file_search;
mod found_file;
mod preprocessing;
mod preprocessor_state;
mod unit_tokens;

pub use preprocessing::{expand, expand_bytes};
