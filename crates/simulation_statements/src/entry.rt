//! Runs of a unit are runs of the templates of its functions.

mod theorems;

pub use theorems::{entries_are_simulated, functions_are_simulated};
