//! Jumps between any two places of a function.

mod theorems;

pub use theorems::{edges_simulate, leaps_simulate};
