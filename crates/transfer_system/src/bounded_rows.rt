//! The own rows of a control-flow program: which kind each cell of a row is of, which bounds its values
//! have, and any row made an own one.

mod bounded_numbers;
mod cell_kinds;
mod fitted_rows;
mod own_cells;

pub use bounded_numbers::Bounded;
pub use fitted_rows::{fill_row, fit_row};
