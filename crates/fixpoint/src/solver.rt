//! The least map from blocks to rows that no edge of a system takes further.

mod arrival;
mod discovery;
mod following;
mod least_map;
mod map_memory;
mod map_release;

pub use least_map::solve;
pub use map_memory::{drop_map, new_map};
pub use map_release::release;
