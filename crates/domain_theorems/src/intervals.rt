//! Laws of the domain of intervals.

mod lawful_integers;
mod theorems;

pub use lawful_integers::LawfulIntegers;
pub use theorems::{
    intervals_are_monotone, intervals_are_sound, results_are_best, rounding_is_least,
};
