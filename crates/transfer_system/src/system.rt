//! The system of flow equations of a control-flow program: its blocks and edges, the row of its
//! entry, and what each edge makes of the row at the start of its block.

mod block_passes;
mod flow_systems;
mod system_checks;

pub use flow_systems::{FlowSystem, has_start, system};
pub use system_checks::is_system;
