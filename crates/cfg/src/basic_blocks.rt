//! Basic blocks.
use crate::machine_instructions::Instruction;

/// A basic block: its instructions, of which only the last one leads on, the number of its first
/// edge and how many edges leave it, and whether it is a head, which is a block that an edge from
/// the same or a later block leads to.
#[derive(Drop)]
pub struct BasicBlock {
    pub instructions: Vec<Instruction>,
    pub first_edge: u32,
    pub edges: u32,
    pub is_head: bool,
}
