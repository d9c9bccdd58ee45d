//! Where the initial values of checked units stand.

mod theorems;

pub use theorems::initializers_are_placed;
