//! The rules of typing that speak of types and constants alone (6.2.5, 6.3 and 6.6 of ISO/IEC
//! 9899:2011).

mod constant_folding;
mod constant_numbers;
mod integer_kinds;
mod type_conversions;
mod type_sizes;
mod type_words;

pub use constant_folding::{complemented, folded, negated, shifted};
pub use constant_numbers::{converted, has_number};
pub use integer_kinds::{
    Rank, char_kind, common_kind, difference_kind, int_kind, integer_kind, promoted, size_kind,
};
pub use type_conversions::{Conversion, Pairing, argument_conversion, cast_conversion, paired};
pub use type_sizes::size_if_complete;
pub use type_words::{NamedKind, WordCounts};
