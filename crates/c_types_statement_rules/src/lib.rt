//! Typing of declared objects and of statements whose parts are typed.
#![tactic(auto)]

pub mod objects;
pub mod statement_rules;
