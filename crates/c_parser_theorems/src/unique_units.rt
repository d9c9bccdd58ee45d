//! Laws of the grammar: a unit has one tree.

mod theorems;

pub use theorems::{one_external_declaration, one_refusal, one_statement, one_tree};
