//! The abstract store: a row of cells for the objects that pointers name, and what loads and stores
//! make of it. The cells and the life of objects are passed on.
#![tactic(auto)]

mod leaf_selection;
mod loads;
mod spelling;
mod stores;

pub use leaf_selection::{
    has_place_in, has_stray, is_other, is_overlapped, is_selected, meets_padding,
};
pub use loads::{load, load_base, load_character};
pub use spelling::spell;
pub use store_cells::{
    Access, CLASSES, Window, ZeroTarget, access_range, added_ranges, any_zero, as_read, as_stored,
    byte_read, byte_written, bytes_of, class_at, class_number, class_position, covering_part,
    forget_zeros, is_determinate_before, is_pointer, join_value, join_zero, joined, kind_of,
    labelled_null, leaf_position, near_number, near_pointer, near_value, no_zero, null_pointer,
    offsets_of, put_character, put_state, put_value, put_zero, same_class, set_zeros, state_at,
    state_position, value_at, value_count, whole_range, window_of, window_within, write_value,
    zero_at, zero_first, zero_position, zero_target,
};
pub use store_objects::{
    Fresh, MOST_BASES, any_freed, clear, enter, forget, free, free_perhaps, has_base,
    is_one_instance, is_single, leave, live_of, may_be_freed, may_be_live, only_base, renew,
    set_values, single_bases, writable_of, zero_value,
};
pub use stores::store;
