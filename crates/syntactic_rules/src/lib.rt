//! The three syntactic rules: what they find in a checked unit (docs/rules.md).
#![tactic(auto)]

mod statement_places;
mod switches;
mod syntactic_rules;
mod term_places;

pub use syntactic_rules::syntactic;
