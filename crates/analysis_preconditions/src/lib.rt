//! Decidable checks of a control-flow program on which the analysis relies.
#![tactic(auto)]

pub mod objects;
pub mod struct_nesting;
