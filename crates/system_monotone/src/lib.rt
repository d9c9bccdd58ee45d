//! Theorems: the system of flow equations is monotone, and what the least map admits every inductive map admits.
#![tactic(auto)]

mod theorems;

pub use theorems::{
    apart_members_are_spread, copies_are_monotone, edges_leave_program_rows, fills_are_monotone,
    least_maps_admit_least, line_calls_are_monotone, memory_calls_are_monotone,
    programs_are_monotone, regular_programs_are_monotone, struct_copies_are_monotone,
    systems_of_intervals_are_monotone, text_calls_are_monotone, text_writes_are_monotone,
    thresholds_are_near, well_formed_programs_are_laid_out, well_formed_programs_are_monotone,
};
