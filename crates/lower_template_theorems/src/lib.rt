//! Theorems on the templates that lowering makes.
#![tactic(auto)]

pub mod growth;
pub mod label_definitions;
pub mod literals;
pub mod names;
pub mod pending_labels;
pub mod switches;
pub mod worklists;
