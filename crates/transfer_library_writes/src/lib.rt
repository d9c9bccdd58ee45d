//! What library calls that copy, fill or write texts make of a row: the bytes that they read, and the
//! cells and first zeros that they write.
#![tactic(auto)]

mod copied_bytes;
mod fill_writes;
mod source_bytes;
mod text_writes;

pub use copied_bytes::{CopyWrite, bytes_of_source, write_copy};
pub use fill_writes::{FillWrite, write_fill};
pub use source_bytes::{Characters, characters_of, reads_blank};
pub use text_writes::{TextWrite, ZeroRule, write_text};
