//! Theorems of progress and preservation for the source semantics.
#![tactic(auto)]

mod theorems;

pub use theorems::{
    expanded_items_do, functions_do, labels_do, lines_keep_marks, looks_mark,
    looks_mark_conditions, looks_mark_terms, looks_scope, looks_stand, objects_live_where_named,
    operations_keep_marks, runs_are_never_stuck, runs_keep_marks, turns_keep_marks,
};
