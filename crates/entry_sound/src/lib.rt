//! Theorems: the abstract state of the entry contains the start of each run.
#![tactic(auto)]

mod theorems;

pub use theorems::{
    checked_initializers_are_typed, checked_units_begin, entry_rows_stand, greatest_rows_stand,
    literals_stand, lowered_programs_start, parameters_stand, runs_begin_as_declared,
    runs_begin_in_memory, runs_begin_in_start_rows, start_rows_stand, static_bytes_are_stored,
    static_objects_stand,
};
