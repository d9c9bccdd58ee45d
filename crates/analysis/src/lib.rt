//! The analysis of a control-flow program: the rules that it may break, by the least inductive map of
//! its system.
#![tactic(auto)]

mod checked_programs;
mod laid_apart;
mod program_analysis;
mod regular_programs;

pub use checked_programs::see_checked;
pub use program_analysis::{analyse, analyse_counted};
pub use regular_programs::is_regular;
