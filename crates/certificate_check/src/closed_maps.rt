//! Whether a map from the blocks of a system to rows is closed: whether the row of its entry is at or
//! above the start row, and which is the first edge that leads to more than its target's row.

mod closed_maps;

pub use closed_maps::{MapFault, first_fault};
