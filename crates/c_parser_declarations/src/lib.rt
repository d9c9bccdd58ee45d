//! The grammar of declarations and declarators (C11 6.7), and the functions that parse them.
#![tactic(auto)]

pub mod grammar;
pub mod readers;
