//! Diagnostics of an invariant map, and whether operands are within their types by it.
#![tactic(auto)]

pub mod diagnostics;
pub mod operands;
