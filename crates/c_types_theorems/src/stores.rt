//! Where the stores of initializers stand.

mod theorems;

pub use theorems::stores_are_placed;
