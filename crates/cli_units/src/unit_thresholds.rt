//! The numbers to which bounds are rounded in a unit, which ascend.
ghost use Rattle.std.specs.Prelude.{◌≡◌, IfOk, true};
ghost use Rattle.c_layout.specs.Models.{is_model};
ghost use Rattle.cc_base.specs.Ascending as spec;
ghost use Rattle.cfg.specs.ThresholdNumbers.{limits_of};
ghost use Rattle.cfg.specs.Nearest.{AreThresholds};
ghost use Rattle.cfg.specs.StructNumbers.{flow_numbers};

use cc_base::{Memory, Thresholds};
use cfg::{Flow, thresholds};
use std::alloc::Global;

/// Whether each number is below the next one.
fn is_ascending(numbers: &[i128]) -> bool
    ensures { result ≡ spec.is_ascending numbers.now }
{
    let Some((first, others)) = numbers.split_first() else {
        return true;
    };
    let mut last = *first;
    for number in others {
        if *number <= last {
            return false;
        }
        last = *number;
    }
    true
}

/// The thresholds of a program, and a look whether they ascend.
///
/// # Errors
///
/// Out of memory.
pub(crate) fn unit_thresholds(alloc: Global, flow: &Flow) -> Result<Thresholds, Memory>
    requires { is_model flow.now.model ≡ true }
    ensures thresholds { IfOk result (λ list. AreThresholds (limits_of flow.now.model) (flow_numbers flow.now) list) }
    ensures ascending { IfOk result (λ list. spec.is_ascending list ≡ true) }
{
    let list = thresholds(alloc, flow)?;
    if is_ascending(list.as_slice()) {
        Ok(list)
    } else {
        Err(Memory)
    }
}
