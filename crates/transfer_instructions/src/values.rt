//! Instructions on integers and on pointers: what each makes of a row, and what it may violate.

mod integer_steps;
mod pointer_steps;
mod result_temps;
mod scalar_classes;

pub use integer_steps::{
    binary_checks, binary_step, compare_step, constant_step, convert_step, not_step, unary_checks,
    unary_step,
};
pub use pointer_steps::{
    LONGEST, address_step, comparison_violations, difference_step, equality_violations,
    narrow_step, narrow_violations, relation_step, shift_checks, shift_step,
};
pub use result_temps::{put_number, put_pointer};
pub use scalar_classes::{class_of, class_of_kind, is_sized, minds_blank};
