//! Lowering of a checked unit to its control-flow program: every call is inlined.
#![tactic(auto)]

pub mod inlining;
pub mod template_laws;
