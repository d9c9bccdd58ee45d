//! Laws of the library calls that write no text: they end, convert, allocate, or read strings.

mod theorems;

pub use theorems::{
    allocations_are_monotone, simple_calls_are_monotone, string_calls_are_monotone,
};
