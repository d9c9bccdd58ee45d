//! Abstract values: labels, pointers or integers, states of allocations, and lengths of strings.
#![tactic(auto)]

pub mod strings;
pub mod values;
