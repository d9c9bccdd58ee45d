//! Rows cut to the types of what they hold, by which the operands of a program may lie within their
//! types. What is made is a proposal, of which nothing is known.

mod cut_rows;
mod kind_sets;
mod typed_temps;

pub use cut_rows::cut_row;
pub use kind_sets::Kinds;
pub use typed_temps::temp_kinds;
