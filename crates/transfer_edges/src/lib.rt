//! What each edge of a control-flow program makes of a row, and the row of its entry.
#![tactic(auto)]

mod branch_edges;
mod refinements;
mod start_rows;

pub use branch_edges::edge;
pub use start_rows::start_row;
