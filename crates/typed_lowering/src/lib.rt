//! Theorems: lowering keeps plain units plain and typed units typed.
#![tactic(auto)]

mod theorems;

pub use theorems::{
    first_objects_are_typed, looped_locals_are_own, looped_templates_are_calm, names_are_typed,
    normalized_templates_are_calm, normalized_templates_are_typed, plain_units_have_plain_programs,
    short_types_are_own, typed_names_make_typed_inlinings, typed_objects_are_typed,
    typed_units_have_typed_accesses, typed_works_make_typed_templates,
    types_stand_where_they_begin, works_are_typed,
};
