//! Writes of some bytes of one instance are sound where they are in each base.

mod theorems;

pub use theorems::region_writes_are_sound;
