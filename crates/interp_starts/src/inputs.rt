//! The start of a run: how many bytes all instances may have, and the entry's parameters, which take
//! numbers of the outside.

mod input_parameters;
mod instance_sums;
mod start_worlds;

pub use instance_sums::{MOST_BYTES, StartStop, may_make};
pub use start_worlds::{entry_parameters, start};
