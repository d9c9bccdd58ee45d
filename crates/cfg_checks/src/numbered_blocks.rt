//! Blocks, and the edges that are numbered by them.
ghost use Rattle.std.specs.Prelude.{◌≡◌, IfOk, length};
ghost use Rattle.cfg.specs.WellFormed as spec;
ghost use Rattle.cfg.specs.WellFormed.{names_of};
ghost use Rattle.cfg_checks.specs.NumberedBlocks.{is_marked_block, are_marked_blocks};

use crate::block_bodies::is_body;
use crate::entered_blocks::{entered_blocks, is_entered};
use crate::operations::fit_operations;
use cfg::{BasicBlock, Edge, Flow};
use cfg_bases_checks::same_truth;
use std::alloc::{AllocError, Global};

/// Whether edges leave one block and enter blocks that are there.
fn all_leave(blocks: usize, from: usize, own: &[Edge]) -> bool
    ensures { result ≡ spec.all_leave blocks from own.now }
{
    own.iter().all(|edge| edge.from as usize == from && (edge.to as usize) < blocks)
}

/// Whether a block with its own edges is well formed.
fn is_block(flow: &Flow, at: usize, entered: bool, block: &BasicBlock, own: &[Edge]) -> bool
    ensures { result ≡ is_marked_block (names_of flow.now) (length flow.now.blocks.items) entered at block.now own.now }
{
    fit_operations(flow, block.instructions.as_slice())
        && (is_body(block.instructions.as_slice(), own)
            && (own.len() == block.edges as usize
                && (all_leave(flow.blocks.len(), at, own) && same_truth(block.is_head, entered))))
}

/// Whether blocks are well formed, and have all edges, numbered in their order.
fn are_marked(flow: &Flow, marks: &[bool]) -> bool
    ensures { result ≡ are_marked_blocks (names_of flow.now) (length flow.now.blocks.items) marks.now 0 0 flow.now.blocks.items flow.now.edges.items }
{
    let blocks = flow.blocks.as_slice();
    let mut rest = flow.edges.as_slice();
    let mut first: u64 = 0;
    for at in 0..blocks.len() {
        let block = &blocks[at];
        let count = block.edges as usize;
        if block.first_edge as u64 != first || rest.len() < count {
            return false;
        }
        let (own, behind) = rest.split_at(count);
        if !is_block(flow, at, is_entered(marks, at), block, own) {
            return false;
        }
        first += block.edges as u64;
        rest = behind;
    }
    rest.is_empty()
}

/// Whether the blocks of a program are well formed.
#[tactic(auto, using(crate::proofs::Blocks::marked_blocks))]
pub fn are_blocks(alloc: Global, flow: &Flow) -> Result<bool, AllocError>
    ensures { IfOk result (λ b. b ≡ spec.are_blocks (names_of flow.now) (length flow.now.blocks.items) flow.now.edges.items 0 0 flow.now.blocks.items flow.now.edges.items) }
{
    let marks = entered_blocks(alloc, flow.blocks.len(), flow.edges.as_slice())?;
    Ok(are_marked(flow, marks.as_slice()))
}
