//! Laws on where the labels of switches stand.

mod theorems;

pub use theorems::choices_are_noted;
