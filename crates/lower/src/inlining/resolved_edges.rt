//! Where edges lead, and the heads that they make.
ghost use Rattle.std.specs.Prelude.{◌≡◌, cond, get_or, nat_le, IfOk, map};
ghost use Rattle.lower_templates.specs.Views.ProgramViews.{block, edge};
ghost use Rattle.lower.specs.Inlining.Inlinings as spec;

use cfg::{BasicBlock, Edge};
use std::alloc::{AllocError, Global};

/// The block of a label.
fn block_at(labels: &[u32], label: u32) -> u32
    ensures { result ≡ get_or labels.now label 0 }
{
    match labels.get(label as usize) {
        Some(block) => *block,
        None => 0,
    }
}

/// Lets each edge lead to a block in place of a label.
pub(crate) fn resolved(
    alloc: Global,
    edges: Vec<Edge>,
    labels: &[u32],
) -> Result<Vec<Edge>, AllocError>
    ensures { IfOk result (λ v. map edge v.items ≡ spec.resolved labels.now (map edge edges.items)) }
{
    let mut out = Vec::new(alloc);
    for edge in edges {
        let to = block_at(labels, edge.to);
        out.push(Edge {
            from: edge.from,
            to,
            kind: edge.kind,
        })?;
    }
    Ok(out)
}

/// Notes a head.
#[tactic(auto, using(crate::proofs::inlining::Heads::no_head))]
fn set_head(blocks: &mut Vec<BasicBlock>, number: u32)
    ensures { map block blocks.new.items ≡ spec.head_set (map block blocks.old.items) number }
{
    if (number as usize) < blocks.len() {
        blocks[number as usize].is_head = true;
    }
}

fn note_head(blocks: &mut Vec<BasicBlock>, from: u32, to: u32)
    ensures { map block blocks.new.items ≡ cond (nat_le to from) (spec.head_set (map block blocks.old.items) to) (map block blocks.old.items) }
{
    if to <= from {
        set_head(blocks, to);
    }
}

/// Notes the heads: the blocks that an edge from the same or a later block leads to.
pub(crate) fn note_heads(blocks: &mut Vec<BasicBlock>, edges: &[Edge])
    ensures { map block blocks.new.items ≡ spec.with_heads (map edge edges.now) (map block blocks.old.items) }
{
    for edge in edges {
        note_head(blocks, edge.from, edge.to);
    }
}
