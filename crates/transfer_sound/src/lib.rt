//! Theorems: transfer functions are sound, and an invariant map contains every reachable state.
#![tactic(auto)]

mod theorems;

pub use theorems::{
    cases_are_sound, clear_steps_are_sound, enter_steps_are_sound, forget_steps_are_sound,
    inductive_maps_are_carried, inductive_maps_begin, integer_tests_are_sound,
    larger_rows_stand_for_more, leave_steps_are_sound, load_steps_are_sound, null_tests_are_sound,
    plain_ends_are_sound, pointer_steps_are_sound, pointer_tests_are_sound, runs_are_covered,
    runs_are_typed_by_rows, store_steps_are_sound, typed_maps_type_runs, typed_rows_type_operands,
    value_steps_are_sound,
};
