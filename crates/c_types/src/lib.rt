//! Typing of external declarations and of whole translation units (C11 6.9).
#![tactic(auto)]

pub mod file_scope;
pub mod units;
