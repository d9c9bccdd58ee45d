//! The grammar of declarations (6.7 and 6.9 of ISO/IEC 9899:2011) as definitions, and the readers of
//! declarators.

mod declarator_layers;
mod declarators;

pub use declarators::{declarator, declarator_list, named_declarator, parameter_declarator};
