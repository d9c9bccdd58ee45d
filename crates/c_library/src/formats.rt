//! The formats of `printf` (7.21.6.1 of ISO/IEC 9899:2011): which arguments a format wants.

mod printf_formats;

pub use printf_formats::{Length, Wanted, wanted_by};
