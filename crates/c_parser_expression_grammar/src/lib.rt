//! The grammar of expressions and type names (6.5 and 6.7.7 of ISO/IEC 9899:2011) as definitions, the
//! reader over terminals, and the operators, words and nodes of its productions.
#![tactic(auto)]

mod expression_nodes;
mod heights;
mod operators;
mod postfix_operators;
mod specifier_words;
mod terminal_reader;
mod type_name_parts;
mod type_name_words;
mod typedef_names;

pub use expression_nodes::{
    add_expression, assign_node, call_node, cast_node, comma_node, conditional_node, infix_node,
    leaf_node, paren_node, prefix_node, sizeof_node, sizeof_type_node, unary_node,
};
pub use heights::{GREATEST_HEIGHT, Parsed, Trouble, inner, made};
pub use operators::{
    LOGICAL_OR, assign_at, assign_sign, infix_from, infix_level, infix_sign, step_at, step_sign,
    unary_at, unary_sign,
};
pub use postfix_operators::{Suffix, suffix_node};
pub use specifier_words::{SpecifierCounts, is_qualifier, storage_class, type_word};
pub use terminal_reader::{Reader, Scope};
pub use type_name_parts::{AbstractParts, ArrayLength, ArrayParts, TypeNameParts};
pub use type_name_words::{count_word, words_height};
pub use typedef_names::TypedefNames;
