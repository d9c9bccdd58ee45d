//! The C library as the analysis knows it: its headers and its functions.

mod header_texts;
mod headers;
mod library;

pub use c_layout::LibFn;
pub use headers::header;
pub use library::signature;
