//! Laws on what templates name.

mod theorems;

pub use theorems::templates_name_the_same;
