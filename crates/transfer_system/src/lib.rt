//! A control-flow program as a system of flow equations, and abstract states within bounds.
#![tactic(auto)]

pub mod bounded_rows;
pub mod system;
