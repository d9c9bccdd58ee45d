//! What a unit's control-flow program has, counted without making it, and what passes a limit.

mod count_limits;
mod normalized_templates;
mod prepared_functions;
mod theorems;

pub use count_limits::{UnitCounts, all_within, pool_values, unit_counts, within};
pub use lower_objects::counts::{
    BaseCount, BlockExtent, FunctionCounts, all_pointed, capped_product, capped_sum, counts_at,
    literal_type, local_type, shared_bases,
};
pub use prepared_functions::{PreparedUnit, prepared};
pub use theorems::one_count;
