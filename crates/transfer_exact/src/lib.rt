//! Theorems: from exact abstract states, transfer functions give exact ones.
#![tactic(auto)]

mod theorems;

pub use theorems::{
    calls_are_exact, cases_are_exact, clears_are_exact, edges_are_exact, enters_are_exact,
    forgets_are_exact, integer_tests_are_exact, intervals_are_exact, leaves_are_exact,
    loads_are_exact, null_tests_are_exact, pointer_steps_are_exact, pointer_tests_are_exact,
    spells_are_exact, stores_are_exact, value_steps_are_exact,
};
