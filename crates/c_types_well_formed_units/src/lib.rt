//! Theorems: each checked unit is well formed, scoped, and fits into memory.
#![tactic(auto)]

mod theorems;

pub use theorems::{
    bodies_are_scoped, bodies_keep_types, checks_are_scoped, checks_are_small,
    checks_are_well_typed, expressions_are_scoped, heads_make_objects, initializers_are_scoped,
    trees_are_proper, trees_declare_in_blocks, units_have_heads,
};
