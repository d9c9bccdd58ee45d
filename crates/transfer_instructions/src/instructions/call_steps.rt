//! Library calls.
ghost use Rattle.std.specs.Prelude.{◌≡◌, true, false, Some, None, length};
ghost use Rattle.transfer_library_plans.specs.Calls.{call_view};
ghost use Rattle.transfer_instructions.specs.Instructions.CallSteps.{call_of, line_call, planned, planned_line, call_violations, call_step, line_violations, goes_on, line_goes_on, write_line};

use c_layout::LibFn;
use cc_base::IntDomain;
use cfg::Flow;
use transfer_checks::Violations;
use transfer_library::{Call, Effect, Plan, apply, plan_call, plan_line};
use value_domain::values::Cell;

/// The plan of a library call.
fn planned<I: IntDomain>(
    flow: &Flow,
    row: &[Cell<I>],
    function: LibFn,
    arguments: &[u32],
    wanted: Option<u64>,
) -> Plan<I>
    ensures { result ≡ planned I.lattice I.numbers flow.now row.now function arguments.now wanted }
{
    let call = Call {
        flow,
        arguments,
        wanted,
    };
    plan_call(function, call, row)
}

/// What a library call may violate.
pub fn call_violations<I: IntDomain>(
    flow: &Flow,
    row: &[Cell<I>],
    function: LibFn,
    arguments: &[u32],
    wanted: Option<u64>,
) -> Violations
    ensures { result ≡ call_violations I.lattice I.numbers flow.now row.now function arguments.now wanted }
{
    planned(flow, row, function, arguments, wanted).violations
}

/// A library call.
#[tactic(auto, unfolding(crate::specs::Instructions::CallSteps::call_step))]
pub fn call_step<I: IntDomain>(
    flow: &Flow,
    row: &mut [Cell<I>],
    to_temp: Option<u32>,
    function: LibFn,
    arguments: &[u32],
    newest: Option<u32>,
    wanted: Option<u64>,
) -> bool
    ensures length { length row.new ≡ length row.old }
    ensures reached { result ≡ true → call_step I.lattice I.numbers flow.now row.old to_temp function arguments.now newest wanted ≡ Some row.new }
    ensures unreached { result ≡ false → call_step I.lattice I.numbers flow.now row.old to_temp function arguments.now newest wanted ≡ None }
{
    let effect = planned(flow, row, function, arguments, wanted).effect;
    apply(flow, row, to_temp, newest, effect)
}

/// The plan of a call of `fgets`.
fn planned_line<I: IntDomain>(
    flow: &Flow,
    row: &[Cell<I>],
    line: u32,
    count: u32,
    stream: u32,
) -> Plan<I>
    ensures { result ≡ planned_line I.lattice I.numbers flow.now row.now line count stream }
{
    let arguments = [line, count, stream];
    let call = Call {
        flow,
        arguments: &arguments,
        wanted: None,
    };
    plan_line(call, row)
}

/// What a call of `fgets` may violate.
pub fn line_violations<I: IntDomain>(
    flow: &Flow,
    row: &[Cell<I>],
    line: u32,
    count: u32,
    stream: u32,
) -> Violations
    ensures { result ≡ line_violations I.lattice I.numbers flow.now row.now line count stream }
{
    planned_line(flow, row, line, count, stream).violations
}

/// Whether a call with the effect goes on.
fn goes_on<I: IntDomain>(effect: Effect<I>) -> bool
    ensures { result ≡ goes_on effect }
{
    match effect {
        Effect::Unreached => false,
        _ => true,
    }
}

/// Whether a call of `fgets` goes on behind its checks; its two edges have its effects.
pub fn line_goes_on<I: IntDomain>(
    flow: &Flow,
    row: &[Cell<I>],
    line: u32,
    count: u32,
    stream: u32,
) -> bool
    ensures { result ≡ line_goes_on I.lattice I.numbers flow.now row.now line count stream }
{
    goes_on(planned_line(flow, row, line, count, stream).effect)
}

/// The line that a call of `fgets` reads.
#[tactic(auto, unfolding(crate::specs::Instructions::CallSteps::write_line))]
pub fn write_line<I: IntDomain>(
    flow: &Flow,
    row: &mut [Cell<I>],
    to_temp: Option<u32>,
    line: u32,
    count: u32,
    stream: u32,
) -> bool
    ensures length { length row.new ≡ length row.old }
    ensures reached { result ≡ true → write_line I.lattice I.numbers flow.now row.old to_temp line count stream ≡ Some row.new }
    ensures unreached { result ≡ false → write_line I.lattice I.numbers flow.now row.old to_temp line count stream ≡ None }
{
    let effect = planned_line(flow, row, line, count, stream).effect;
    apply(flow, row, to_temp, None, effect)
}
