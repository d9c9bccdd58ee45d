//! The texts of maps from the blocks of a program to rows.

mod least_cells;
mod map_texts;

pub use least_cells::is_least;
pub use map_texts::{head_text, write_cert};
