//! Bodies of functions follow in the pieces to which they come.

mod theorems;

pub use theorems::{labels_simulate, statements_simulate};
