//! The rules of statements whose parts have types (6.8 of ISO/IEC 9899:2011): what they become, or the
//! refusal at their place.

mod body_flow;
mod compound_statements;
mod simple_statements;
mod statement_nodes;

pub use body_flow::BodyFlow;
pub use compound_statements::{
    CaseStanding, Controlling, case_standing, case_statement, close_switch, controlling_expression,
    default_statement, open_switch,
};
pub use simple_statements::{
    break_statement, continue_statement, effect, goto_statement, return_statement, value_statement,
    valued,
};
pub use statement_nodes::{
    Clauses, block_node, do_node, enter_loop, enter_switch, for_node, if_else_node, if_node,
    label_node, no_parts, step_clause, test_clause, while_node,
};
