//! Stores of characters are sound.

mod theorems;

pub use theorems::character_stores_are_sound;
