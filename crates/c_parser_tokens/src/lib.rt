//! What the tokens of a unit are to the grammar: keywords, names, constants with their values and
//! types, joined string literals and punctuators.
#![tactic(auto)]

mod character_codes;
mod classification;
mod constant_types;
mod integer_forms;
mod keywords;
mod punctuators;
mod terminals;

pub use classification::{Terminals, classify};
pub use terminals::{Keyword, Punctuator, Symbol, Terminal};
