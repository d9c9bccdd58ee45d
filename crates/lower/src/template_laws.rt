//! Laws of templates, which the lowering of a unit stands on.

mod theorems;

pub use theorems::{are_followed, are_named, ends_block};
