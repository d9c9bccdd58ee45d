//! Instructions: what each makes of a row, and what it may violate.

mod call_steps;
mod memory_steps;
mod operation_checks;
mod operation_groups;
mod operation_steps;

pub use call_steps::write_line;
pub use operation_checks::{operation_violations, violations_at};
pub use operation_steps::{operate, step};
