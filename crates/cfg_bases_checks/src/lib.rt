//! Whether the bases of a control-flow program are well formed: their kinds and places, their leaves and
//! first zeros, and what static objects begin with.
#![tactic(auto)]

mod apart_leaves;
mod base_kinds;
mod base_places;
mod base_shapes;
mod base_tables;
mod first_zero_parts;
mod static_starts;
mod value_ranges;

pub use apart_leaves::ends_by;
pub use base_kinds::{is_automatic, is_declared, is_site};
pub use base_places::{has_room, reaches};
pub use base_shapes::are_shaped;
pub use base_tables::{all_cells, are_initial_objects, are_parameters, are_placed, is_width};
pub use static_starts::are_started;
pub use value_ranges::{
    class_bytes, class_of, is_common, is_extent, is_int_type, is_number, is_optional_extent,
    is_scalar, same_truth,
};
