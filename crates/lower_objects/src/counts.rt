//! What the parts of a unit's control-flow program count to: the pieces of a template, its local
//! objects, and the objects of static storage and literals that are named.

mod function_counts;
mod object_counts;
mod shared_objects;

pub use function_counts::{
    BlockExtent, FunctionCounts, capped_product, capped_sum, counts_at, extent, if_used, temps,
};
pub use object_counts::{BaseCount, both, inner_bases, local_type, own_bases};
pub use shared_objects::{all_pointed, literal_type, shared_bases};
