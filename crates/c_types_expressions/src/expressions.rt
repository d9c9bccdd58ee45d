//! The types of expressions (6.5 of ISO/IEC 9899:2011): from the tree of an expression to its
//! checked tree, with each conversion explicit.

mod expressions;
mod leaves;
mod lengths;

pub use c_types_operands::{Form, Operand, assigned, integer_as, is_scalar, term_of, unused};
pub use c_types_operators::struct_source;
pub use c_types_primary::{Tagged, enumeration_tag, struct_tag, typedef_named};
pub use expressions::{length, typed};
