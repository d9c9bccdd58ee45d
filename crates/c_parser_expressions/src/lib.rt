//! The grammar of expressions and type names (6.5 and 6.7.7 of ISO/IEC 9899:2011), read by
//! recursive descent whose depth a budget bounds.
#![tactic(auto)]

mod abstract_layers;
mod expressions;
mod pointer_stars;
mod postfix_expressions;
mod type_names;
mod unary_expressions;

pub use c_parser_expression_grammar::{
    GREATEST_HEIGHT, Parsed, Reader, Scope, SpecifierCounts, Trouble, TypedefNames, inner,
    is_qualifier, made, storage_class, type_word,
};
pub use expressions::{assignment, conditional, expression};
pub use pointer_stars::{is_one_star, stars};
