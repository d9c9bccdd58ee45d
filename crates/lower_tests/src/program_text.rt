//! Control-flow programs and thresholds as text.

mod edge_texts;
mod operation_texts;
mod program_texts;
mod word_texts;

pub use program_texts::program_text;
