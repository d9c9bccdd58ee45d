//! Copies of memory and of structs, and `realloc` (6.5.16.1, 7.22.3.5, 7.24.2.1 and 7.24.2.2 of
//! ISO/IEC 9899:2011), as calls.

mod memory_copies;
mod reallocations;
mod region_writes;
mod struct_copies;

pub use memory_copies::{memcpy, memmove};
pub use reallocations::realloc;
pub use struct_copies::copy_struct;
