//! The thresholds of a control-flow program.
ghost use Rattle.std.specs.Prelude.{◌≡◌, ◌≤◌, ◌++◌, ◌∷◌, [], IfOk, true, pos, negsuc, length};
ghost use Rattle.cc_base.specs.Ascending.{is_ascending};
ghost use Rattle.c_layout.specs.Models.{is_model};
ghost use Rattle.cfg.specs.ThresholdNumbers.{limits_of};
ghost use Rattle.cfg.specs.Nearest.{AreThresholds};
ghost use Rattle.cfg.specs.StructNumbers.{flow_numbers};

use crate::member_numbers::push_structs;
use crate::nearest_numbers::{nearest, without_limits};
use crate::number_lists::ordered;
use crate::programs::Flow;
use crate::threshold_numbers::{limits, push_bases, push_blocks, push_edges};
use cc_base::{Memory, Thresholds};
use std::alloc::{AllocError, Global};

/// Every number that the program speaks of, besides the limits of types.
fn spoken_of(alloc: Global, flow: &Flow) -> Result<Vec<i128>, AllocError>
    ensures { IfOk result (λ v. v.items ≡ flow_numbers flow.now) }
{
    let mut out = Vec::new(alloc);
    push_blocks(&mut out, flow.blocks.as_slice())?;
    push_edges(&mut out, flow.edges.as_slice())?;
    push_bases(&mut out, flow.bases.as_slice())?;
    push_structs(&mut out, &flow.structs, flow.model.pointer)?;
    out.push(-1)?;
    out.push(0)?;
    out.push(1)?;
    Ok(out)
}

/// The limits, and of the other numbers those of least absolute value.
fn chosen(alloc: Global, limits: Vec<i128>, numbers: &[i128]) -> Result<Vec<i128>, AllocError>
    requires { length limits.items ≤ 64 }
    ensures ascending { IfOk result (λ v. is_ascending v.items ≡ true) }
    ensures few { IfOk result (λ v. length v.items ≤ 320) }
    ensures exact { IfOk result (λ v. AreThresholds limits.items numbers.now v.items) }
{
    let mut all = limits;
    let others = ordered(without_limits(alloc, all.as_slice(), numbers)?);
    all.extend_from_slice(nearest(others.as_slice()))?;
    Ok(ordered(all))
}

/// The numbers to which bounds of abstract values are rounded: the limits of the integer types and
/// END, and of the other numbers that the program speaks of the 256 of least absolute value.
pub fn thresholds(alloc: Global, flow: &Flow) -> Result<Thresholds, Memory>
    requires { is_model flow.now.model ≡ true }
    ensures { IfOk result (λ t. AreThresholds (limits_of flow.now.model) (flow_numbers flow.now) t) }
{
    let limits = limits(alloc, &flow.model)?;
    let numbers = spoken_of(alloc, flow)?;
    Ok(Thresholds::from_ascending(chosen(alloc, limits, numbers.as_slice())?))
}
