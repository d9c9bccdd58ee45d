//! `goto` in its pieces.

mod theorems;

pub use theorems::gotos_simulate;
