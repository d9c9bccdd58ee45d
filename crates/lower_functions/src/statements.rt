//! Statements as works: declarations, blocks, selections, loops, `switch`, and jumps with what is left
//! and entered on the way.

mod jump_statements;
mod loop_statements;
mod plain_statements;
mod scope_jumps;
mod statement_forms;
mod switch_statements;

pub use jump_statements::push_stop;
pub use plain_statements::push_statements;
pub use scope_jumps::{push_enters, push_leaves};
pub use statement_forms::statement_works;
