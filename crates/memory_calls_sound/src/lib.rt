//! Theorems: transfer functions of memory calls are sound.
#![tactic(auto)]

mod theorems;

pub use theorems::{
    allocation_calls_are_sound, copy_calls_are_sound, free_calls_are_sound,
    reallocation_calls_are_sound,
};
