//! Theorems: transfer functions keep abstract states within their bounds.
#![tactic(auto)]

mod theorems;

pub use theorems::{
    accesses_keep_floors, edges_leave_own_rows, fits_change_nothing, objects_keep_floors,
    programs_fit_nothing, programs_start_own, regular_programs_fit_nothing,
    regular_programs_may_have_no_start, short_lists_cut, start_fits_change_nothing,
    start_rows_are_own, steps_keep_floors, thresholds_reach_types, wide_texts_are_cut,
};
