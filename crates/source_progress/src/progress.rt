//! A run of the source is stuck at most at a step that asks for a value.

mod theorems;

pub use theorems::{runs_are_stuck_at_open_steps, runs_have_steps, turns_have_steps};
