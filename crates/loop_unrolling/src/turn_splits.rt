//! Programs whose loops are unrolled to a bound.
ghost use Rattle.std.specs.Prelude.{◌≡◌, IfErr, IfOk, None, true};
ghost use Rattle.cfg.specs.WellFormed.{is_well_formed};
ghost use Rattle.lower_templates.specs.Views.ProgramViews.{flow_view};
ghost use Rattle.loop_unrolling.specs.SplitCounts.{split_counts, first_over, Splits};
ghost use Rattle.loop_unrolling.specs.Turns as spec;

use crate::block_copies::block_copies;
use crate::edge_copies::edge_copies;
use crate::split_counts::{counts_within, split_counts};
use cc_base::{Limits, Stop};
use cfg::Flow;
use cfg_checks::well_formed;
use lower_templates::views::{base_copies, object_copies, structure_copies};
use std::alloc::{AllocError, Global};

/// How many copies there are, the number of the last one, and how many blocks and edges each has.
#[derive(Clone, Copy)]
pub struct Turns {
    pub copies: u32,
    pub last: u32,
    pub blocks: u32,
    pub edges: u32,
}

/// The copies that a number of turns asks for.
fn turns_of(flow: &Flow, turns: u32) -> Result<Turns, AllocError>
    ensures { IfOk result (λ t. t ≡ spec.turns_of (flow_view flow.now) turns) }
{
    Ok(Turns {
        copies: turns.checked_add(2).ok_or(AllocError)?,
        last: turns.checked_add(1).ok_or(AllocError)?,
        blocks: u32::try_from(flow.blocks.len()).ok().ok_or(AllocError)?,
        edges: u32::try_from(flow.edges.len()).ok().ok_or(AllocError)?,
    })
}

fn split_flow(alloc: Global, flow: &Flow, turns: u32) -> Result<Flow, AllocError>
    ensures { IfOk result (λ f. flow_view f ≡ spec.split turns (flow_view flow.now)) }
{
    let found = turns_of(flow, turns)?;
    Ok(Flow {
        blocks: block_copies(alloc, flow.blocks.as_slice(), found)?,
        edges: edge_copies(alloc, flow.edges.as_slice(), found)?,
        bases: base_copies(alloc, flow.bases.as_slice())?,
        temps: flow.temps,
        initial: object_copies(alloc, flow.initial.as_slice())?,
        parameters: Vec::from_slice(alloc, flow.parameters.as_slice())?,
        entry: flow.entry,
        structs: structure_copies(alloc, &flow.structs)?,
        width: flow.width,
        model: flow.model,
    })
}

/// The program with `turns + 2` copies of each block, ordered by copy and then by block. An edge to a
/// later block stays in its copy; an edge that goes back leads to the next copy, and in the last copy,
/// which alone has heads, stays there. So the first turns of a loop are analysed each by itself.
///
/// # Errors
///
/// `TooLarge` at the name of the entry where the blocks, the instructions or the pool of the split
/// program pass their limits, the first in this order; want of memory, to which a program that is not
/// well formed would come too.
pub fn split(alloc: Global, flow: &Flow, turns: u32, limits: &Limits) -> Result<Flow, Stop>
    ensures split { IfOk result (λ f. flow_view f ≡ spec.split turns (flow_view flow.now)) }
    ensures well_formed { IfOk result (λ f. is_well_formed limits.now f ≡ true) }
    ensures fits { IfOk result (λ _. first_over limits.now (split_counts turns (flow_view flow.now)) ≡ None) }
    ensures cause { IfErr result (Splits limits.now turns (flow_view flow.now)) }
{
    let counts = split_counts(flow, turns);
    counts_within(flow.entry, counts, limits)?;
    let made = split_flow(alloc, flow, turns)?;
    Ok(well_formed(alloc, made, limits)?)
}
