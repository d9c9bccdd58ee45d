//! Theorems: transfer functions of string and input calls are sound.
#![tactic(auto)]

mod theorems;

pub use theorems::{
    append_calls_are_sound, append_writes_are_sound, bounded_text_calls_are_sound,
    fill_calls_are_sound, followed_arrays_are_characters, line_ends_are_sound,
    print_calls_are_sound, result_calls_are_sound, spell_steps_are_sound, string_calls_are_sound,
    text_calls_are_sound, text_writes_are_sound, well_formed_programs_have_apart_texts,
};
