//! What each step of the machine asks of its operands: which rules it may violate, and what of the
//! operands goes on.
#![tactic(auto)]

mod allocation_checks;
mod integer_checks;
mod library_arguments;
mod near_ranges;
mod pointer_checks;
mod string_scans;
mod temporaries;
mod touches;
mod violation_sets;

pub use allocation_checks::{Released, allocation_violations, check_release};
pub use integer_checks::{
    binary_violations, character_violations, sink_violations, unary_violations,
};
pub use library_arguments::{
    Argument, after_write, check_argument, cut_by_room, passes_room, touched_window, within_bases,
    writes_literal,
};
pub use pointer_checks::{Compared, check_same_instance, shift_violations};
pub use string_scans::{Scanned, scan, scan_start};
pub use temporaries::{amount_value, put_temp, temp_position, temp_value};
pub use touches::{Touched, into_bases, no_pointer, touch};
pub use violation_sets::Violations;
