//! The cells of a row of the abstract store: where they stand, at which offsets an access begins, and
//! what a read or a write makes of one cell and of the first zeros of a base.
#![tactic(auto)]

mod access_windows;
mod byte_writes;
mod cell_reads;
mod cell_writes;
mod class_numbers;
mod first_zero_writes;
mod near_values;
mod row_positions;
mod scalar_types;

pub use access_windows::{Window, access_range, added_ranges, window_of, window_within};
pub use byte_writes::{byte_written, labelled_null, null_pointer};
pub use cell_reads::{Access, as_read, as_stored, byte_read, joined, whole_range};
pub use cell_writes::write_value;
pub use class_numbers::{class_at, class_number, is_pointer, same_class};
pub use first_zero_writes::{
    ZeroTarget, any_zero, covering_part, forget_zeros, is_determinate_before, no_zero, offsets_of,
    put_character, set_zeros, zero_first, zero_target,
};
pub use near_values::{near_number, near_pointer, near_value};
pub use row_positions::{
    CLASSES, class_position, join_value, join_zero, leaf_position, put_state, put_value, put_zero,
    state_at, state_position, value_at, value_count, zero_at, zero_position,
};
pub use scalar_types::{bytes_of, kind_of};
