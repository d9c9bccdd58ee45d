//! Worked examples, proved: one small unit from its bytes to its report.
#![tactic(auto)]

mod theorems;

pub use theorems::{
    held_bytes_are_expanded, held_bytes_give_one_unit, held_files_give_one_unit,
    inductive_maps_have_a_row_for_each_block, one_division_is_found, one_line_is_told, one_outcome,
    premises_of_soundness_are_met, tokens_are_parsed, trees_are_checked, unit_divides_by_zero,
    what_is_found_is_told,
};
