//! Copies of edges.
ghost use Rattle.std.specs.Prelude.{◌≡◌, ◌++◌, IfOk, map};
ghost use Rattle.lower_templates.specs.Views.ProgramViews.{edge};
ghost use Rattle.loop_unrolling.specs.Turns as spec;

use crate::turn_splits::Turns;
use cfg::Edge;
use lower_templates::views::kind_copy;
use std::alloc::{AllocError, Global};

/// The copy to which an edge of a copy leads: the next one, where it goes back and there is one.
fn copy_behind(turns: Turns, copy: u32, from: u32, to: u32) -> u32
    ensures { result ≡ spec.copy_behind turns.last copy from to }
{
    if from < to {
        copy
    } else if copy < turns.last {
        copy + 1
    } else {
        turns.last
    }
}

/// The number of a block's copy.
fn block_number(turns: Turns, copy: u32, block: u32) -> Result<u32, AllocError>
    ensures { IfOk result (λ n. n ≡ spec.number_in turns.blocks copy block) }
{
    let first = copy.checked_mul(turns.blocks).ok_or(AllocError)?;
    first.checked_add(block).ok_or(AllocError)
}

fn edge_copy(alloc: Global, found: &Edge, turns: Turns, copy: u32) -> Result<Edge, AllocError>
    ensures { IfOk result (λ e. edge e ≡ spec.edge_copy turns.blocks turns.last copy (edge found.now)) }
{
    let next = copy_behind(turns, copy, found.from, found.to);
    Ok(Edge {
        from: block_number(turns, copy, found.from)?,
        to: block_number(turns, next, found.to)?,
        kind: kind_copy(alloc, &found.kind)?,
    })
}

/// Adds the edges of a copy.
fn add_copy(
    alloc: Global,
    edges: &[Edge],
    turns: Turns,
    copy: u32,
    made: &mut Vec<Edge>,
) -> Result<(), AllocError>
    ensures { IfOk result (λ _. map edge made.new.items ≡ map edge made.old.items ++ map (spec.edge_copy turns.blocks turns.last copy) (map edge edges.now)) }
{
    for found in edges {
        let copy = edge_copy(alloc, found, turns, copy)?;
        made.push(copy)?;
    }
    Ok(())
}

/// The edges of all copies.
pub fn edge_copies(alloc: Global, edges: &[Edge], turns: Turns) -> Result<Vec<Edge>, AllocError>
    ensures { IfOk result (λ v. map edge v.items ≡ spec.edges_below turns (map edge edges.now) turns.copies) }
{
    let mut made = Vec::new(alloc);
    for copy in 0..turns.copies {
        add_copy(alloc, edges, turns, copy, &mut made)?;
    }
    Ok(made)
}
