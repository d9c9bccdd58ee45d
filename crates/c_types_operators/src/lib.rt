//! The rules of the other operators: unary operators, `sizeof` and casts, `&&`, `||`, `?:`, the comma
//! operator, and assignments (6.5.2.4, 6.5.3, 6.5.4, 6.5.13 to 6.5.17 of ISO/IEC 9899:2011).
#![tactic(auto)]

mod assignments;
mod choices;
mod sizes_and_casts;
mod unary_operators;

pub use assignments::{assignment, struct_source};
pub use choices::{comma, conditional, logical};
pub use sizes_and_casts::{cast, size_of_operand, size_of_type};
pub use unary_operators::{promoted_kind, step, unary};
