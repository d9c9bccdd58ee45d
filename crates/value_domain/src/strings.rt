//! The first zero byte of a character array, over any domain of integers.

mod first_zeros;

pub use first_zeros::{END, FirstZero};
