//! Initializers (6.7.9 of ISO/IEC 9899:2011): the subobjects that they reach, what they store, and
//! the constants of those of static storage. Their expressions have types already.
#![tactic(auto)]

mod address_constants;
mod list_stores;
mod literals;
mod object_initializers;
mod static_initializers;
mod subobjects;

pub use address_constants::{Address, PointerConstant};
pub use list_stores::{Filling, sought_text, store_next, store_scalar};
pub use literals::{bare_literal, character_room, only_literal};
pub use object_initializers::{Initialized, by_operand, filled, spelled};
pub use static_initializers::static_stores;
pub use subobjects::{Cursor, Subobject};
