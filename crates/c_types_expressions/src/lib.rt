//! Typing of expressions (C11 6.5) and of braced initializers (C11 6.7.9).
#![tactic(auto)]

pub mod braced_lists;
pub mod expressions;
