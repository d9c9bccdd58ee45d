//! The conditions of `#if` and `#elif` (6.10.1 of ISO/IEC 9899:2011), computed in 64 bits.
#![tactic(auto)]

mod condition_symbols;
mod condition_value;
mod defined_names;
mod evaluation;
mod number_forms;
mod operations;
mod theorems;

pub use condition_value::Number;
pub use defined_names::{Digits, replace_defined};
pub use evaluation::{ConditionFault, holds};
pub use theorems::one_value;
