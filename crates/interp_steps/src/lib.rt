//! Steps of the interpreter on pending values, objects and calls.
#![tactic(auto)]

pub mod machine_items;
pub mod operations;
