//! The command line, and the numbers of a draws file.
#![tactic(auto)]

pub mod draws;
mod numerals;
pub mod words;
