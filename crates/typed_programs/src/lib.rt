//! Theorems: accesses of a program whose pointers have types are typed.
#![tactic(auto)]

mod theorems;

pub use theorems::{
    cases_keep_types, clears_keep_types, copies_keep_types, enters_keep_types, forgets_keep_types,
    leaves_are_scalars, leaves_keep_types, loads_are_typed, narrows_are_typed,
    parts_stand_in_their_types, shifts_are_typed, spells_keep_types, starts_are_typed,
    stores_keep_types, structures_have_leaves, structures_stand_apart, templates_lead_on,
    tests_keep_types, typed_programs_have_typed_accesses,
};
