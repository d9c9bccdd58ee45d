//! The shapes of bases: the leaves and first zeros of objects, and those of allocations.

mod shapes_of_bases;
mod struct_zeros;

pub use shapes_of_bases::{heap_leaves, heap_shape, object_shape};
