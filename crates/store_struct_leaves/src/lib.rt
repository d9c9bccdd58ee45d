//! One leaf of a copied struct: the offsets that it can have, and what is read from the cells of the
//! source and written to those of the target.
#![tactic(auto)]

mod copy_places;
mod leaf_copies;

pub use copy_places::Span;
pub use leaf_copies::{LeafAccess, Side, read_leaf, write_leaf};
