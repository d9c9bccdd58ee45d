//! The words that every crate of `ccheck` shares: places and rules, refusals and limits, tokens
//! and texts, the tree of files that is read and the sink that is written.
#![tactic(auto)]

mod diagnostics;
mod int_type_ranges;
mod int_types;
mod integer_bounds;
mod integer_domains;
mod integer_operators;
mod lattices;
mod lexemes;
mod limit_table;
mod memory_sink;
mod memory_tree;
mod number_ranges;
mod outside;
mod refusals;
mod rule_table;
mod sorted_lists;
mod standard_sink;
mod step_counter;
mod system_files;
mod systems;
mod text_bytes;
mod threshold_list;
mod truths;

pub use diagnostics::{Diag, Place, Rule};
pub use int_types::IntType;
pub use integer_bounds::between_or_bottom;
pub use integer_domains::IntDomain;
pub use integer_operators::{IntOp, Rel, Tri, UnOp};
pub use lattices::Lattice;
pub use lexemes::{Kind, Token, Tokens};
pub use limit_table::{Count, Limits};
pub use memory_sink::MemSink;
pub use memory_tree::MemTree;
pub use number_ranges::{
    of_range, range_between, range_clamped, range_difference, range_met, range_over, range_sum,
    range_times, ranges_meet, ranges_same_one, upper_or,
};
pub use outside::{LONGEST_FILE, Sink, SinkFailed, Tree, TreeFault};
pub use refusals::{Fault, Memory, Refusal, Stop};
pub use rule_table::RULES;
pub use sorted_lists::{ordered, ordered_diagnostics};
pub use standard_sink::StdSink;
pub use step_counter::Steps;
pub use system_files::FileTree;
pub use systems::System;
pub use text_bytes::Text;
pub use threshold_list::Thresholds;
