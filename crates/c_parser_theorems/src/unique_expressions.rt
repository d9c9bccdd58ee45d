//! Laws of the grammar of expressions: what tokens derive from fixes the tree.

mod theorems;

pub use theorems::one_expression;
