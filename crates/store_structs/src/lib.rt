//! Copies of structs in the abstract store, leaf by leaf.
#![tactic(auto)]

mod copy_zeros;
mod leaf_counts;
mod leaf_numbers;
mod padding_writes;
mod struct_copy;

pub use leaf_counts::{Table, bytes_in};
pub use struct_copy::{StructCopy, copy_struct};
