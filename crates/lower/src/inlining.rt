//! Lowering of a checked unit to its control-flow program.

mod counted_bases;
mod inlined_program;
mod moved_operations;
mod resolved_edges;
mod theorems;
mod unit_lowering;

pub use theorems::{as_counted, no_more_bases, one_lowering, well_made};
pub use unit_lowering::lower;
