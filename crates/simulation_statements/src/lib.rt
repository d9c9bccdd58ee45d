//! Theorems: templates simulate the statements and functions of the source.
#![tactic(auto)]

pub mod bodies;
pub mod dispatches;
pub mod entry;
pub mod gotos;
pub mod jump_simulation;
pub mod jumps;
pub mod labels;
pub mod scope_exits;
pub mod statements;
pub mod switch_labels;
pub mod switch_tables;
pub mod switches;
