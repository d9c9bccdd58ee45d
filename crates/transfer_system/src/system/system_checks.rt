//! Whether the blocks and edges of a control-flow program make a system.
ghost use Rattle.std.specs.Prelude.{◌≡◌};
ghost use Rattle.std.specs.List.{list_all};
ghost use Rattle.transfer_system.specs.System.FlowMachines.{is_head_at};
ghost use Rattle.transfer_system.specs.System.SystemChecks.{is_sound_edge, is_in_order, is_few, is_system};

use cfg::{BasicBlock, Edge, Flow};

/// Whether a block is a head; false where there is no such block.
pub fn is_head_at(blocks: &[BasicBlock], block: u32) -> bool
    ensures { result ≡ is_head_at blocks.now block }
{
    match blocks.get(block as usize) {
        None => false,
        Some(found) => found.is_head,
    }
}

/// Whether an edge is between blocks that are there, and enters a head where it goes back.
fn is_sound_edge(blocks: &[BasicBlock], edge: &Edge) -> bool
    ensures { result ≡ is_sound_edge blocks.now edge.now }
{
    (edge.from as usize) < blocks.len()
        && ((edge.to as usize) < blocks.len()
            && (edge.from < edge.to || is_head_at(blocks, edge.to)))
}

fn are_sound(blocks: &[BasicBlock], edges: &[Edge]) -> bool
    ensures { result ≡ list_all (is_sound_edge blocks.now) edges.now }
{
    for at in 0..edges.len() {
        if !is_sound_edge(blocks, &edges[at]) {
            return false;
        }
    }
    true
}

/// Whether edges are numbered by the blocks that they leave.
fn are_in_order(edges: &[Edge]) -> bool
    ensures { result ≡ is_in_order 0 edges.now }
{
    let mut least = 0;
    for at in 0..edges.len() {
        if edges[at].from < least {
            return false;
        }
        least = edges[at].from;
    }
    true
}

/// Whether the numbers of blocks and edges are small enough to be counted on.
fn is_few(count: usize) -> bool
    ensures { result ≡ is_few count }
{
    count < 1 << 31
}

/// Whether the blocks and edges of the program make a system: there is a block, edges are between
/// blocks that are there and numbered by the blocks that they leave, and what an edge from the same
/// or a later block enters is a head.
pub fn is_system(flow: &Flow) -> bool
    ensures { result ≡ is_system flow.now }
{
    let blocks = flow.blocks.as_slice();
    let edges = flow.edges.as_slice();
    blocks.len() > 0
        && (is_few(blocks.len())
            && (is_few(edges.len()) && (are_sound(blocks, edges) && are_in_order(edges))))
}
