//! A run of a checked unit over given numbers of the outside.

mod outcomes;
mod replays;
mod runs;

pub use outcomes::{End, Outcome, ReplayStop};
pub use replays::replay;
