//! Operators on integers that may leave their type (6.5.3.3, 6.5.5 to 6.5.7 and 6.5.10 to 6.5.12 of
//! ISO/IEC 9899:2011), as calls.

mod number_faults;
mod number_labels;
mod number_results;
mod number_steps;
mod unsigned_products;

pub use number_steps::{binary, unary};
