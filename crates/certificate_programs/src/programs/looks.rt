//! What soundness asks of a program.
ghost use Rattle.std.specs.Prelude.{◌≡◌, IfOk};
ghost use Rattle.certificate_programs.specs.Programs.Certificates.{IsLookedAt, look_numbers};

use crate::programs::solved_maps::starts;
use analysis::{is_regular, see_checked};
use cc_base::{Memory, Thresholds};
use cfg::Flow;
use std::alloc::Global;

/// The ends of the bounds of certificates, and 0.
fn look_list(alloc: Global) -> Result<Thresholds, Memory>
    ensures { IfOk result (λ list. list ≡ look_numbers) }
{
    let mut numbers = Vec::new(alloc);
    numbers.push(-0x1_0000_0000_0000_0000)?;
    numbers.push(0)?;
    numbers.push(0x1_0000_0000_0000_0000)?;
    Ok(Thresholds::from_ascending(numbers))
}

/// Sees that a program has a start, and is such as soundness asks beside its operands.
///
/// # Errors
///
/// Out of memory, to which a program comes that is no such one.
pub fn see_program(alloc: Global, flow: &Flow) -> Result<(), Memory>
    ensures { IfOk result (λ _. IsLookedAt flow.now) }
{
    let list = look_list(alloc)?;
    if starts(alloc, flow)? && is_regular(alloc, flow, &list)? {
        see_checked(alloc, flow, &list)
    } else {
        Err(Memory)
    }
}
