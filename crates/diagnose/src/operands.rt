//! Whether, by the rows of a map, the operands of a program's instructions lie within the types that the
//! instructions name.

mod typed_instructions;
mod typed_maps;

pub use typed_instructions::{has_operands, is_typed_block};
pub use typed_maps::is_typed_map;
