//! The memory of a C program, byte by byte, as a program keeps it.
#![tactic(auto)]

mod accesses;
mod byte_forms;
mod byte_reading;
mod byte_writing;
mod instance_memory;
mod instances;
mod leaf_tags;

pub use byte_forms::{
    Byte7, Content7, InstKind, InstState, LabelSet, Loaded, Pointer7, Spot, Stored, Value7,
};
pub use byte_reading::{fits, scalar_from, union_of};
pub use byte_writing::{unlabelled, write_scalar};
pub use instance_memory::Memory7;
pub use leaf_tags::{class_size, tag_by_leaves};
