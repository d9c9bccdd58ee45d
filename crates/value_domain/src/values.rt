//! Abstract values, allocation states and the cells of rows, over any domain of integers.

mod alloc_states;
mod label_sets;
mod row_cells;
mod value_operators;
mod values;

pub use alloc_states::AllocState;
pub use label_sets::Labels;
pub use row_cells::Cell;
pub use value_operators::{negated_leave, range_fits, ranges_leave};
pub use values::Value;
