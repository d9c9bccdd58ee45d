//! Laws on `switch` in a unit and in its templates.

mod theorems;

pub use theorems::{switches_simulate, values_have_edges};
