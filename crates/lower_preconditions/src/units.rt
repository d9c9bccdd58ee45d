//! A look at the functions of a unit before it is lowered.

mod label_numbers;
mod regular_statements;
mod regular_terms;
mod regular_units;
mod scope_objects;

pub use regular_units::{is_regular_unit, with_regular_functions};
