//! What steps do to the memory that a program keeps, to the numbers of the outside and to the
//! violations: effects of the machines, as calls.
#![tactic(auto)]

mod access_steps;
mod allocation_calls;
mod character_calls;
mod integer_steps;
mod library_checks;
mod memory_calls;
mod object_steps;
mod pointer_steps;
mod string_calls;
mod string_scans;
mod worlds;

pub use access_steps::{class_in, is_model_scalar, is_signed, load, store};
pub use allocation_calls::{calloc, free, freeable, give_back, is_given, make, malloc, too_small};
pub use character_calls::{getchar, putchar};
pub use integer_steps::{
    compare_numbers, convert, has_size, is_false_value, negation, numbers_hold, pointer_from,
    truth_value,
};
pub use library_checks::{Reach, fitting, most_size, reached, with_size, writable};
pub use memory_calls::{memset, overlap, repeated};
pub use object_steps::{clear, enter, forget, leave};
pub use pointer_steps::{are_equal, compare, difference, narrow, shift, touched};
pub use string_calls::{puts, strlen};
pub use string_scans::{length_within, string_length};
pub use worlds::{Cause, Halt, World7};
