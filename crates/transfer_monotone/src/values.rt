//! Laws of the abstract steps on integers and pointers, and of the rules that they may violate.

mod theorems;

pub use theorems::{
    checks_of_integers_are_monotone, checks_of_pointers_are_monotone,
    steps_on_integers_are_monotone, steps_on_pointers_are_monotone,
};
