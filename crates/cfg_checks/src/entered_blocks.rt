//! The blocks that edges go back to.
ghost use Rattle.std.specs.Prelude.{◌≡◌, IfOk, length};
ghost use Rattle.cfg_checks.specs.EnteredBlocks as spec;

use cfg::Edge;
use std::alloc::{AllocError, Global};

/// Marks the block that an edge goes back to, where it does.
fn mark(marks: &mut Vec<bool>, edge: &Edge)
    ensures { marks.new.items ≡ spec.mark_back edge.now marks.old.items }
{
    let to = edge.to as usize;
    if edge.to <= edge.from && to < marks.len() {
        marks[to] = true;
    }
}

/// Whether an edge from the same or a later block enters a block, for each of so many.
pub fn entered_blocks(alloc: Global, count: usize, edges: &[Edge]) -> Result<Vec<bool>, AllocError>
    ensures { IfOk result (λ v. v.items ≡ spec.entered_blocks count edges.now) }
{
    let mut marks = vec![in alloc; false; count]?;
    for edge in edges {
        mark(&mut marks, edge);
    }
    Ok(marks)
}

/// The mark of a block; false where there is none.
pub fn is_entered(marks: &[bool], at: usize) -> bool
    ensures { result ≡ spec.is_entered marks.now at }
{
    match marks.get(at) {
        Some(mark) => *mark,
        None => false,
    }
}
