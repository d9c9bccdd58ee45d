//! Expressions as works: values, pointers to lvalues, assignments and calls.
#![tactic(auto)]

mod assigned_values;
mod branched_values;
mod called_values;
mod lvalue_pointers;
mod term_values;

pub use branched_values::{Known, branch, jump, left_targets};
pub use called_values::read_line;
pub use lvalue_pointers::address_works;
pub use term_values::term_works;
