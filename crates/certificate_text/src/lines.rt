//! The lines of certificates: the text of a line, and the line of a text.

mod base_digits;
mod cell_readers;
mod cell_texts;
mod decimal_words;
mod line_words;
mod map_lines;

pub use line_words::{behind, same_bytes, until};
pub use map_lines::{MapLine, line_text, read_line};
