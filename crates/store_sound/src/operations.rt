//! The abstract store is sound: it speaks of each state that the machine can be in.

mod theorems;

pub use theorems::{
    character_loads_are_sound, freed_pointers_show, loads_are_sound, memory_stays_sound,
    padding_is_seen, stores_are_sound, touches_are_sound, violations_are_admitted,
};
