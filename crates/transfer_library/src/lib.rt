//! The library functions of the analysis: what a call may violate, and what it makes of a row.
#![tactic(auto)]

mod call_effects;
mod memory_calls;
mod planning;
mod string_calls;

pub use call_effects::apply;
pub use planning::{plan_call, plan_line};
pub use transfer_library_plans::{Call, Effect, Plan};
