//! Laws on runs of a unit and of its templates.

mod theorems;

pub use theorems::{runs_are_simulated, turns_are_simulated};
