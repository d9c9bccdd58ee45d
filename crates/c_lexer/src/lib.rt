//! The preprocessing tokens of a C source file (5.1.1.2 and 6.4 of ISO/IEC 9899:2011): spliced
//! lines, comments, and pieces that are each the longest that can begin where they begin.
#![tactic(auto)]

mod byte_class;
mod cutting;
mod line_context;
mod pieces;
mod punctuator_table;
mod reading;
mod splicing;
mod theorems;

pub use cutting::lex;
pub use theorems::{every_file_has_an_answer, one_answer};
