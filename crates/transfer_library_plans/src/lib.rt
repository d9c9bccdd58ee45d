//! The arguments and the plans of library calls, and the plans of those that copy and fill no bytes:
//! allocation, characters, output and what reads strings.
#![tactic(auto)]

mod allocation_calls;
mod call_arguments;
mod call_plans;
mod character_calls;
mod output_calls;

pub use allocation_calls::{plan_calloc, plan_free, plan_malloc, plan_realloc};
pub use call_arguments::{
    Call, argument_value, literal_violations, room_violations, string_violations,
};
pub use call_plans::{Effect, Plan, Trail, harmless, planned};
pub use character_calls::plan_character;
pub use output_calls::{
    argument_at, given_trail, plan_getchar, plan_printf, plan_putchar, plan_puts, plan_strcmp,
    plan_strlen, scan_at, scanned_trail,
};
