//! Tests of edges, as calls: what they say of memory, and the labels that they drop.

mod edge_tests;
mod side_labels;
mod test_sides;

pub use edge_tests::{pass_case, pass_test};
pub use test_sides::{Side7, Test7, opposite, turned};
