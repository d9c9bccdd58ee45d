//! Laws of what copies of structs reach.

mod theorems;

pub use theorems::{apart_leaves_are_spread, larger_spans_reach_more};
