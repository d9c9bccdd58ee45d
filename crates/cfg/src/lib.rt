//! The control-flow program that is analysed: basic blocks of instructions on numbered temporaries,
//! edges with tests, and the bases that its pointers name.
#![tactic(auto)]

mod basic_blocks;
mod flow_edges;
mod machine_instructions;
mod member_numbers;
mod nearest_numbers;
mod number_lists;
mod programs;
mod threshold_choice;
mod threshold_numbers;

pub use basic_blocks::BasicBlock;
pub use flow_edges::{CaseTest, Edge, EdgeKind, Side, Test};
pub use machine_instructions::{Amount, Instruction, Operation, Scalar};
pub use programs::{Flow, InitialObject, InitialValue, ParameterInput};
pub use threshold_choice::thresholds;
