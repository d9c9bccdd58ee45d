//! The tags of bytes by the type of their object.

mod theorems;

pub use theorems::{parts_have_their_tags, tags_are_of_types};
