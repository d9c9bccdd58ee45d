//! Lines, output, functions on characters, and all library calls by name (7.4 and 7.21 of ISO/IEC
//! 9899:2011), as calls.

mod character_classes;
mod library_calls;
mod line_reads;
mod printed_strings;

pub use library_calls::library;
pub use line_reads::fgets;
