//! Theorems: copies of structs are sound.
#![tactic(auto)]

mod theorems;

pub use theorems::{
    circular_structs_lose_leaves, copied_zeros_stand, copies_are_sound, copies_keep_memory,
    leaf_writes_stand, made_tables_are_ordered, ordered_programs_have_structs,
    ordered_structs_are_numbered, spans_see_bytes, well_formed_programs_have_structs,
};
