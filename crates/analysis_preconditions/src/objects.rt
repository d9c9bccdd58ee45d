//! What the parts of a control-flow program name: sites of allocations, characters under texts, and scalars
//! in tests.

mod call_sites;
mod scalar_objects;
mod scalar_tests;
mod sound_parts;
mod spelled_texts;

pub use sound_parts::has_sound_parts;
