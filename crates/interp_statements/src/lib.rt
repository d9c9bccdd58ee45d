//! The items of statements, where labels stand in them, and what follows conditions.
#![tactic(auto)]

mod choices;
mod label_search;
mod loop_items;
mod statement_items;

pub use choices::follow;
pub use label_search::{Sought7, case_of, find, find_label, has_label, is_in};
pub use loop_items::push_loop;
pub use statement_items::{push_body, push_statement, push_statements};
