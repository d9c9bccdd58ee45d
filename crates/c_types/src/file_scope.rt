//! Declarations at file scope (6.7, 6.9.2 of ISO/IEC 9899:2011): objects, functions and typedef names.

mod external_declarations;
mod function_declarations;

pub use external_declarations::{external_declaration, is_typedef};
pub use function_declarations::{FunctionSlot, function_slot, judged_head, taken_body};
