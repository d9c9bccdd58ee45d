//! Control-flow programs as contracts see them, and copies of their parts.

mod copied_objects;
mod copied_operations;
mod copied_shapes;
mod copied_structs;

pub use copied_objects::{object_copies, store_copies};
pub use copied_operations::{instruction_copies, kind_copy};
pub use copied_shapes::base_copies;
pub use copied_structs::structure_copies;
