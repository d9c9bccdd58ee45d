//! Laws of values and of their parts.

mod theorems;

pub use theorems::{
    bases_are_monotone, bases_are_sound, equality_is_sound, joins_are_monotone, labels_are_sound,
    larger_values_stand_for_more, pointers_are_monotone, pointers_are_sound, values_are_monotone,
    values_are_sound, zeros_are_monotone, zeros_are_sound,
};
