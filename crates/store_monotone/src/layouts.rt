//! Laws of the layouts of structs.

mod theorems;

pub use theorems::{made_layouts_stand_apart, structs_laid_apart_are_spread};
