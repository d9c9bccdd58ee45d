//! In runs of a unit whose terms have operands of their kinds, pending values have the kinds that are taken.

mod theorems;

pub use theorems::{runs_keep_kinds, turns_keep_kinds};
