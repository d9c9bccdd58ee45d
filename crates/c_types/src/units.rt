//! Typing of a translation unit (6.2 to 6.9 of ISO/IEC 9899:2011): from its tree to its checked
//! tree, or the first refusal in reading order.

mod function_definitions;
mod unit_checks;
mod unit_definitions;
mod unit_entries;

pub use unit_checks::check;
