//! Files of draws: the numbers that a replay takes as its input.

mod draw_numbers;
mod draws_files;

pub use draws_files::{DrawsFault, read_draws};
