//! `memcpy`, `memmove` and `memset`.
ghost use Rattle.std.specs.Prelude.{◌≡◌};
ghost use Rattle.transfer_checks.specs.LibraryArguments.{cut_by_room};
ghost use Rattle.transfer_library_plans.specs.Calls.{call_view};
ghost use Rattle.transfer_library.specs.MemoryCalls.{room_trail, target_of, nothing_written, plan_copy, sure_window, is_zero_byte, is_one_byte, lower_of, fill_trail, fill_effect, fill_in_window, fill_to, fill_given, plan_fill, copy_in_window, copy_to, both_given, copy_both};
ghost use Rattle.pointer_domain.specs.PointerTables.{IsNearPointer};

use cc_base::{IntDomain, upper_or};
use pointer_domain::{Bases, Pointers};
use store::{Window, window_within, writable_of};
use transfer_checks::{
    Argument, Violations, after_write, cut_by_room, passes_room, sink_violations, touched_window,
    within_bases, writes_literal,
};
use transfer_library_plans::{
    Call, Effect, Plan, Trail, argument_at, argument_value, given_trail, literal_violations,
    planned, room_violations,
};
use transfer_library_writes::{CopyWrite, FillWrite, bytes_of_source};
use value_domain::values::{Cell, Value};

/// Where a call of memcpy or memset writes: the trail of its checks, the bases that go on, the pointer
/// and the count of bytes.
#[derive(Clone, Copy)]
pub struct Target<I> {
    pub trail: Trail,
    pub rest: Pointers<I>,
    pub count: Option<(i128, i128)>,
}

/// The check of the room of a pointer for a count of bytes.
pub fn check_room<I: IntDomain>(
    trail: Trail,
    p: Pointers<I>,
    need: Option<(i128, i128)>,
) -> (Trail, Option<(i128, i128)>)
    requires { IsNearPointer I.numbers p }
    ensures trail { result.0 ≡ room_trail I.numbers trail p need }
    ensures cut { result.1 ≡ cut_by_room I.numbers need p }
{
    let cut = cut_by_room(need, p);
    let passed = trail.check(room_violations(passes_room(need, p)), cut.is_some());
    (passed, cut)
}

/// The check that no literal is written.
pub fn check_literals<I: IntDomain>(
    call: Call,
    trail: Trail,
    p: Pointers<I>,
    need: Option<(i128, i128)>,
) -> Target<I>
    ensures near { IsNearPointer I.numbers result.rest }
    ensures value { result ≡ target_of I.lattice I.numbers (call_view call.entry) trail p need }
{
    let bases = call.flow.bases.as_slice();
    let kept = after_write(bases, p.bases, need);
    let writes = literal_violations(writes_literal(bases, p.bases, need));
    Target {
        trail: trail.check(writes, !kept.is_empty()),
        rest: within_bases(p, kept),
        count: need,
    }
}

/// The effect where no byte can be written: the result, where none need be.
pub fn nothing_written<I: IntDomain>(target: Target<I>) -> Effect<I>
    ensures { result ≡ nothing_written I.lattice target }
{
    if lower_of(target.count) >= 1 {
        return Effect::Unreached;
    }
    Effect::Result(Value::of_pointer(target.rest))
}

/// The effect of a copy on a window.
fn copy_in_window<I: IntDomain>(
    call: Call,
    row: &[Cell<I>],
    from: Argument<I>,
    target: Target<I>,
    window: Option<Window>,
) -> Effect<I>
    requires { IsNearPointer I.numbers from.rest }
    ensures { result ≡ copy_in_window I.lattice I.numbers (call_view call.entry) row.now from target window }
{
    let result = Value::of_pointer(target.rest);
    match window {
        None => nothing_written(target),
        Some(window) => {
            let source = touched_window(from.rest, target.count);
            Effect::Copy(
                CopyWrite {
                    bases: writable_of(call.flow.bases.as_slice(), target.rest.bases),
                    window,
                    bytes: bytes_of_source(call.flow, row, from.rest.bases, source),
                },
                result,
            )
        }
    }
}

fn copy_to<I: IntDomain>(
    call: Call,
    row: &[Cell<I>],
    from: Argument<I>,
    target: Target<I>,
) -> Plan<I>
    requires from { IsNearPointer I.numbers from.rest }
    requires target { IsNearPointer I.numbers target.rest }
    ensures { result ≡ copy_to I.lattice I.numbers (call_view call.entry) row.now from target }
{
    let window = touched_window(target.rest, target.count);
    planned(
        target.trail,
        copy_in_window(call, row, from, target, window),
    )
}

/// The trail behind a size and two pointers.
pub fn both_given<I: IntDomain>(n: Value<I>, to: Argument<I>, from: Argument<I>) -> Trail
    ensures { result ≡ both_given n to from }
{
    let trail = Trail::start(sink_violations(n.labels));
    given_trail(given_trail(trail, to), from)
}

fn copy_both<I: IntDomain>(
    call: Call,
    row: &[Cell<I>],
    n: Value<I>,
    to: Argument<I>,
    from: Argument<I>,
) -> Plan<I>
    requires to { IsNearPointer I.numbers to.rest }
    requires from { IsNearPointer I.numbers from.rest }
    ensures { result ≡ copy_both I.lattice I.numbers (call_view call.entry) row.now n to from }
{
    let trail = both_given(n, to, from);
    let (trail, count) = check_room(trail, to.rest, n.num.bounds());
    let (trail, count) = check_room(trail, from.rest, count);
    copy_to(call, row, from, check_literals(call, trail, to.rest, count))
}

/// The plan of `memcpy` and `memmove`.
pub fn plan_copy<I: IntDomain>(call: Call, row: &[Cell<I>]) -> Plan<I>
    ensures { result ≡ plan_copy I.lattice I.numbers (call_view call.entry) row.now }
{
    let n = argument_value(call, row, 2);
    let to = argument_at(call, row, 0);
    let from = argument_at(call, row, 1);
    copy_both(call, row, n, to, from)
}

/// The bytes that are surely touched: from the last place where the write can begin to the first one
/// where it can end.
fn sure_window(start: Option<(i128, i128)>, count: Option<(i128, i128)>) -> Option<Window>
    ensures { result ≡ sure_window start count }
{
    let (lo, hi) = start?;
    let (least, _) = count?;
    let last = lo.saturating_add(least).saturating_sub(1);
    if hi <= last {
        window_within(Some((hi, last)))
    } else {
        None
    }
}

/// Whether each number of the value is 0 modulo 256.
fn is_zero_byte<I: IntDomain>(c: Value<I>) -> bool
    ensures { result ≡ is_zero_byte I.numbers c }
{
    match c.num.bounds() {
        None => false,
        Some((lo, hi)) => lo == hi && lo.rem_euclid(256) == 0,
    }
}

/// Whether no more than one byte is written.
pub fn is_one_byte(count: Option<(i128, i128)>) -> bool
    ensures { result ≡ is_one_byte count }
{
    upper_or(0, count) <= 1
}

/// The least number, or 0 where there is none.
pub fn lower_of(count: Option<(i128, i128)>) -> i128
    ensures { result ≡ lower_of count }
{
    match count {
        None => 0,
        Some(p) => p.0,
    }
}

fn fill_effect<I: IntDomain>(
    call: Call,
    target: Target<I>,
    c: Value<I>,
    window: Window,
    start: Window,
) -> Effect<I>
    requires { IsNearPointer I.numbers target.rest }
    ensures { result ≡ fill_effect I.lattice I.numbers (call_view call.entry) target c window start }
{
    Effect::Fill(
        FillWrite {
            bases: writable_of(call.flow.bases.as_slice(), target.rest.bases),
            start,
            window,
            sure: sure_window(target.rest.offsets(), target.count),
            one_byte: is_one_byte(target.count),
            zero: is_zero_byte(c),
            labels: c.labels,
            least: lower_of(target.count),
        },
        Value::of_pointer(target.rest),
    )
}

fn fill_in_window<I: IntDomain>(
    call: Call,
    target: Target<I>,
    c: Value<I>,
    window: Option<Window>,
    start: Option<Window>,
) -> Effect<I>
    requires { IsNearPointer I.numbers target.rest }
    ensures { result ≡ fill_in_window I.lattice I.numbers (call_view call.entry) target c window start }
{
    match (window, start) {
        (Some(w), Some(start)) => fill_effect(call, target, c, w, start),
        _ => nothing_written(target),
    }
}

fn fill_to<I: IntDomain>(call: Call, c: Value<I>, target: Target<I>) -> Plan<I>
    requires { IsNearPointer I.numbers target.rest }
    ensures { result ≡ fill_to I.lattice I.numbers (call_view call.entry) c target }
{
    let window = touched_window(target.rest, target.count);
    let start = window_within(target.rest.offsets());
    planned(target.trail, fill_in_window(call, target, c, window, start))
}

/// The trail behind the character, the size and the pointer of `memset`.
fn fill_trail<I: IntDomain>(c: Value<I>, n: Value<I>, to: Argument<I>) -> Trail
    ensures { result ≡ fill_trail I.numbers c n to }
{
    let trail = Trail::start(sink_violations(n.labels));
    let trail = trail.check(Violations::none(), c.num.bounds().is_some());
    given_trail(trail, to)
}

fn fill_given<I: IntDomain>(call: Call, c: Value<I>, n: Value<I>, to: Argument<I>) -> Plan<I>
    requires { IsNearPointer I.numbers to.rest }
    ensures { result ≡ fill_given I.lattice I.numbers (call_view call.entry) c n to }
{
    let (trail, count) = check_room(fill_trail(c, n, to), to.rest, n.num.bounds());
    fill_to(call, c, check_literals(call, trail, to.rest, count))
}

/// The plan of `memset`.
#[tactic(auto, unfolding(crate::specs::MemoryCalls::plan_fill))]
pub fn plan_fill<I: IntDomain>(call: Call, row: &[Cell<I>]) -> Plan<I>
    ensures { result ≡ plan_fill I.lattice I.numbers (call_view call.entry) row.now }
{
    let c = argument_value(call, row, 1);
    let n = argument_value(call, row, 2);
    fill_given(call, c, n, argument_at(call, row, 0))
}
