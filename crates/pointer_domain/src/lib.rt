//! The pointer part of abstract values, over any domain of integers.
#![tactic(auto)]

mod base_sets;
mod pointer_relations;
mod pointer_sets;
mod pointer_steps;

pub use base_sets::Bases;
pub use pointer_sets::Pointers;
pub use pointer_steps::END;
