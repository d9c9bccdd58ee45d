//! Laws on the works of which templates are made.

mod theorems;

pub use theorems::templates_are_derived;
