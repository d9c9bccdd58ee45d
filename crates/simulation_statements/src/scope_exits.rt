//! Ways from any scope of a function to any other one.

mod theorems;

pub use theorems::{chains_have_ways, jumps_are_ways, ways_are_pieces, ways_enter};
