//! The life of the objects that bases stand for: which may be live, how they are entered, left and
//! cleared, and what allocation and freeing make of the two bases of a site.
#![tactic(auto)]

mod allocation;
mod freeing;
mod live_bases;
mod object_lives;

pub use allocation::{Fresh, renew};
pub use freeing::{free, free_perhaps};
pub use live_bases::{
    MOST_BASES, any_freed, has_base, is_one_instance, is_single, live_of, may_be_freed,
    may_be_live, only_base, single_bases, writable_of,
};
pub use object_lives::{clear, enter, forget, leave, set_values, zero_value};
