//! The calls of a unit, and the first one that closes a cycle.

mod call_graph;
mod call_removal;
mod certificates;

pub use call_graph::{Call, CallGraph};
