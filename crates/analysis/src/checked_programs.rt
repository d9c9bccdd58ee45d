//! What soundness asks of a program and of a list of numbers.
ghost use Rattle.std.specs.Prelude.{◌≡◌, IfOk};
ghost use Rattle.analysis.specs.CheckedPrograms as spec;

use analysis_preconditions::objects::has_sound_parts;
use analysis_preconditions::struct_nesting::see_order;
use cc_base::{Memory, Thresholds};
use cfg::Flow;
use std::alloc::Global;

/// Whether a number is at most the least one of any integer type.
fn is_below_types(number: i128) -> bool
    ensures { result ≡ spec.is_below_types number }
{
    number <= -9_223_372_036_854_775_808
}

/// Whether one of the list is.
fn reaches_types(numbers: &[i128]) -> bool
    ensures { result ≡ spec.reaches_types numbers.now }
{
    numbers.iter().any(|number| is_below_types(*number))
}

/// Sees that the parts of a program are such as the theorems on single instructions and edges ask, that
/// its structs stand in no circle, and that the list goes as far down as the integer types. Each part of
/// the program and of the list is looked at a few times.
///
/// # Errors
///
/// Out of memory, to which a program or a list comes that is no such one.
#[tactic(auto, using(crate::proofs::CheckedPrograms::checked_of))]
pub fn see_checked(alloc: Global, flow: &Flow, list: &Thresholds) -> Result<(), Memory>
    ensures { IfOk result (λ _. spec.IsChecked flow.now list.now) }
{
    see_order(alloc, &flow.structs)?;
    if has_sound_parts(flow) && reaches_types(list.as_slice()) {
        Ok(())
    } else {
        Err(Memory)
    }
}
