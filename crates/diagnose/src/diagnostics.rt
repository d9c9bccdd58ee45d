//! The rules that a control-flow program may break, read off a map of its rows.

mod admitted_rules;
mod block_diagnoses;
mod map_diagnoses;

pub use admitted_rules::admits;
pub use block_diagnoses::diagnose_block;
pub use map_diagnoses::diagnose;
