//! The machine of the source over the memory that a program keeps: one turn after the other.

mod branch_turns;
mod jump_turns;
mod sizes;
mod turns;

pub use interp_steps::machine_items::{Frame7, Machine, Turned7, next_item};
pub use sizes::asked_bytes;
pub use turns::{begin, turn};
