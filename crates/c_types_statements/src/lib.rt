//! Statements and the declarations in them (6.7, 6.8 of ISO/IEC 9899:2011): the way down their trees.
#![tactic(auto)]

mod label_numbers;
mod leaf_statements;
mod local_declarations;
mod statements;
mod static_initializers;

pub use label_numbers::add_labels;
pub use local_declarations::{are_none, is_empty};
pub use statements::items;
pub use static_initializers::static_initializer;
