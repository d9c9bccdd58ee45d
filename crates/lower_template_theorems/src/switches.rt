//! Laws on the switches of templates.

mod theorems;

pub use theorems::templates_switch_as_trees;
