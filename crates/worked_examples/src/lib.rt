//! Worked examples, proved: runs, wrong definitions that are refuted, and small units through a theorem.
#![tactic(auto)]

mod theorems;

pub use theorems::{
    divisions_by_pointed_numbers_are_typed, loop_is_followed, loops_can_be_unrolled,
    other_types_are_excluded, plain_units_may_load_and_store, wrong_templates_are_refused,
};
