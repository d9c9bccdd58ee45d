//! Copies of blocks.
ghost use Rattle.std.specs.Prelude.{◌≡◌, ◌++◌, IfOk, map, length};
ghost use Rattle.lower_templates.specs.Views.ProgramViews.{block};
ghost use Rattle.loop_unrolling.specs.Turns as spec;

use crate::turn_splits::Turns;
use cfg::BasicBlock;
use lower_templates::views::instruction_copies;
use std::alloc::{AllocError, Global};

/// A block in a copy whose edges begin at a number; only the last copy has heads.
fn block_copy(
    alloc: Global,
    found: &BasicBlock,
    first: u32,
    is_last: bool,
) -> Result<BasicBlock, AllocError>
    ensures { IfOk result (λ b. block b ≡ spec.block_copy first is_last (block found.now)) }
{
    Ok(BasicBlock {
        instructions: instruction_copies(alloc, found.instructions.as_slice())?,
        first_edge: first.checked_add(found.first_edge).ok_or(AllocError)?,
        edges: found.edges,
        is_head: is_last && found.is_head,
    })
}

/// Adds a copy of all blocks.
fn add_copy(
    alloc: Global,
    blocks: &[BasicBlock],
    first: u32,
    is_last: bool,
    made: &mut Vec<BasicBlock>,
) -> Result<(), AllocError>
    ensures { IfOk result (λ _. map block made.new.items ≡ map block made.old.items ++ map (spec.block_copy first is_last) (map block blocks.now)) }
{
    for found in blocks {
        let copy = block_copy(alloc, found, first, is_last)?;
        made.push(copy)?;
    }
    Ok(())
}

/// All copies of all blocks.
pub fn block_copies(
    alloc: Global,
    blocks: &[BasicBlock],
    turns: Turns,
) -> Result<Vec<BasicBlock>, AllocError>
    ensures { IfOk result (λ v. map block v.items ≡ spec.blocks_below turns (map block blocks.now) turns.copies) }
{
    let mut made = Vec::new(alloc);
    for copy in 0..turns.copies {
        let first = copy.checked_mul(turns.edges).ok_or(AllocError)?;
        add_copy(alloc, blocks, first, copy == turns.last, &mut made)?;
    }
    Ok(made)
}
