//! What the operations of the source's machine do to values of the kinds that they take.

mod theorems;

pub use theorems::{
    lines_have_steps, operations_have_steps, operations_keep_kinds, stores_have_steps,
};
