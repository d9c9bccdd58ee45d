//! Whether a control-flow program is well formed, told in one pass over its parts.
#![tactic(auto)]

mod block_bodies;
mod data_models;
mod edge_kinds;
mod entered_blocks;
mod numbered_blocks;
mod operations;
mod program_counts;
mod struct_counts;
mod theorems;
mod well_formed_flows;

pub use cfg_bases_checks::{all_cells, class_bytes, class_of, ends_by, is_int_type};
pub use theorems::{is_a_system, leaves_share_no_byte};
pub use well_formed_flows::{is_well_formed, well_formed};
