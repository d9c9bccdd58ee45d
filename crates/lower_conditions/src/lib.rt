//! Conditions as works: where they lead, and what is known on their edges.
#![tactic(auto)]

mod branch_conditions;
mod branch_tests;
mod line_reads;

pub use branch_conditions::condition_works;
pub use branch_tests::{NamedObject, named};
pub use line_reads::{LineCall, ReadTest, read_by};
