//! Loops unrolled to a bound: a program in which each block stands in several copies, from one to the
//! next of which the edges lead that go back.
#![tactic(auto)]

mod block_copies;
mod edge_copies;
mod split_counts;
mod turn_splits;

pub use turn_splits::split;
