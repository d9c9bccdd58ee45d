//! Theorems: typing makes well-formed terms, initializers and statements.
#![tactic(auto)]

mod theorems;

pub use theorems::{
    bodies_are_well_typed, conversions_give, declarations_are_well_typed, declarators_keep,
    declarators_lay, expressions_are_made, expressions_keep, expressions_lay, folds_as_computed,
    heads_keep, initializers_are_well_typed, lengths_keep, operators_make, specifiers_keep,
    specifiers_lay, static_stores_are_proper, stores_are_near, switches_select,
    unused_is_well_typed, values_are_made,
};
