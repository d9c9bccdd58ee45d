//! The parser: takes the tokens of a unit after preprocessing to its tree (6.5 to 6.9 of
//! ISO/IEC 9899:2011), piece by piece.
#![tactic(auto)]

mod external_declarations;
mod jump_statements;
mod parsing;
mod pieces;
mod statement_nodes;
mod statement_parts;
mod statements;

pub use parsing::parse;
