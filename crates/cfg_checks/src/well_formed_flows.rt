//! Whether a whole program is well formed.
ghost use Rattle.std.specs.Prelude.{◌≡◌, IfOk, true};
ghost use Rattle.cfg.specs.WellFormed as spec;

use crate::data_models::is_model;
use crate::edge_kinds::fit_edges;
use crate::numbered_blocks::are_blocks;
use crate::program_counts::is_within;
use crate::struct_counts::are_counted;
use cc_base::Limits;
use cfg::Flow;
use cfg_bases_checks::{
    are_initial_objects, are_parameters, are_placed, are_shaped, are_started, is_width,
};
use std::alloc::{AllocError, Global};

fn is_few(count: usize) -> bool
    ensures { result ≡ spec.is_few count }
{
    count < 1 << 31
}

fn are_few(flow: &Flow) -> bool
    ensures { result ≡ spec.are_few flow.now }
{
    is_few(flow.blocks.len()) && is_few(flow.edges.len())
}

/// Whether the bases, the objects that are there before the run begins, and the structs are such as the
/// model makes them.
fn is_laid_out(flow: &Flow) -> Result<bool, AllocError>
    ensures { IfOk result (λ b. b ≡ spec.is_laid_out flow.now) }
{
    let counted = are_counted(&flow.structs)?;
    Ok(
        is_model(&flow.model)
            && (are_shaped(&flow.model, flow.bases.as_slice()) && (are_started(flow) && counted)),
    )
}

/// Whether a program is well formed within limits: what its parts name is there and is of the kind
/// that they need, types, numbers and extents are in range, edges are numbered by the blocks that
/// they leave, heads are where edges go back to, and no count passes its limit. Each block,
/// instruction, edge and base is looked at once.
///
/// # Errors
///
/// Want of memory, to which a count that no u64 holds comes too.
pub fn is_well_formed(alloc: Global, flow: &Flow, limits: &Limits) -> Result<bool, AllocError>
    ensures { IfOk result (λ b. b ≡ spec.is_well_formed limits.now flow.now) }
{
    let bases = flow.bases.as_slice();
    let blocks = are_blocks(alloc, flow)?;
    let edges = fit_edges(flow);
    let placed = are_placed(bases)?;
    let width = is_width(flow)?;
    let initial = are_initial_objects(bases, flow.initial.as_slice());
    let parameters = are_parameters(flow);
    let within = is_within(flow, limits)?;
    let rest = are_few(flow) && is_laid_out(flow)?;
    let named = initial && (parameters && (within && rest));
    Ok(flow.blocks.len() > 0 && (blocks && (edges && (placed && (width && named)))))
}

/// The same program, where it is well formed within limits.
///
/// # Errors
///
/// Want of memory, to which a program that is not well formed comes too.
pub fn well_formed(alloc: Global, flow: Flow, limits: &Limits) -> Result<Flow, AllocError>
    ensures same { IfOk result (λ f. f ≡ flow) }
    ensures well_formed { IfOk result (λ f. spec.is_well_formed limits.now f ≡ true) }
{
    if is_well_formed(alloc, &flow, limits)? {
        Ok(flow)
    } else {
        Err(AllocError)
    }
}
