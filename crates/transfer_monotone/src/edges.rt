//! Laws of the abstract steps of whole programs.

mod theorems;

pub use theorems::{
    edges_and_instructions_are_monotone, steps_in_memory_are_monotone, systems_are_monotone,
};
