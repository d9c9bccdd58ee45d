//! Certificates of control-flow programs: the text of the map that the solver finds, and the rules
//! that a program may break by the map of a text.

mod checked_maps;
mod looks;
mod smaller_maps;
mod solved_maps;

pub use checked_maps::{Verified, verify_program};
pub use solved_maps::prove_program;
