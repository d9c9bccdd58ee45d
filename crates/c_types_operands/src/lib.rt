//! What an expression is to the operator above it, the conversions that no cast writes, and the rules
//! of the operators between two operands (6.3, 6.5.2.1, 6.5.5 to 6.5.12 of ISO/IEC 9899:2011).
#![tactic(auto)]

mod arithmetic;
mod comparisons;
mod implicit_conversions;
mod indirections;
mod operands;
mod pointer_arithmetic;

pub use arithmetic::{KindPair, integer_kinds};
pub use comparisons::{as_type_of, binary, pairing};
pub use implicit_conversions::{assigned, converted_term, integer_as, unused};
pub use indirections::{indirection, subscript};
pub use operands::{
    Constancy, Form, Operand, Value, is_integer, is_null, is_scalar, is_struct, is_void, loaded,
    lvalue_operand, lvalue_value, number_operand, own_lvalue, parenthesized, pointer_to, term_of,
    value_of, value_operand,
};
pub use pointer_arithmetic::target_size;
