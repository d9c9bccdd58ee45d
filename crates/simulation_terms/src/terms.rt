//! Terms follow in the pieces to which they come.

mod theorems;

pub use theorems::{conditions_simulate, terms_simulate, unused_terms_simulate};
