//! Input, output and the end of the run (7.21 and 7.22.4 of ISO/IEC 9899:2011).
ghost use Rattle.std.specs.Prelude.{◌≡◌};
ghost use Rattle.transfer_library_plans.specs.Calls.{call_view};
ghost use Rattle.transfer_library_plans.specs.Outputs.{plan_getchar, plan_putchar, pointer_trail, scan_trail, plan_puts, has_number, printed_trail, printed_trail_at, text_trail, text_trail_at, scan_violations, pointer_trails, scan_trails, plan_printf, plan_strlen, plan_strcmp, placed, argument_at, scan_at, given_trail, scanned_trail, length_of, strlen_of};
ghost use Rattle.pointer_domain.specs.PointerTables.{IsNearPointer};
ghost use Rattle.cc_base.specs.IntegerDomains.{IsNear};

use crate::call_arguments::{Call, argument_value, string_violations};
use crate::call_plans::{Effect, Plan, Trail, harmless, planned};
use c_layout::{Class, Model};
use cc_base::{IntDomain, between_or_bottom, of_range, range_met};
use pointer_domain::Bases;
use store::{kind_of, window_within};
use transfer_checks::{Argument, Scanned, Violations, check_argument, scan, within_bases};
use value_domain::values::{Cell, Labels, Value};

/// `getchar`: a character or -1, with the labels of input.
pub fn plan_getchar<I: IntDomain>(model: &Model) -> Plan<I>
    ensures { result ≡ plan_getchar I.lattice I.numbers model.now }
{
    let labels = Labels::input(kind_of(model, Class::Int, true));
    harmless(Effect::Result(Value::of_number(between_or_bottom(-1, 255), labels)))
}

/// `putchar`: the character as unsigned char, with its labels.
pub fn plan_putchar<I: IntDomain>(model: &Model, c: Value<I>) -> Plan<I>
    requires { IsNear (I.numbers.bounds c.num) }
    ensures { result ≡ plan_putchar I.lattice I.numbers model.now c }
{
    let kind = kind_of(model, Class::Char, false);
    let num = c.num.convert(kind);
    if num.bounds().is_none() {
        return harmless(Effect::Unreached);
    }
    harmless(Effect::Result(Value::of_number(num, c.labels)))
}

/// The pointers that go on have a place among the bytes: no run has one without.
fn placed<I: IntDomain>(given: Argument<I>) -> Argument<I>
    requires { IsNearPointer I.numbers given.rest }
    ensures near { IsNearPointer I.numbers result.rest }
    ensures value { result ≡ placed I.lattice I.numbers given }
{
    if window_within(given.rest.offsets()).is_some() {
        return given;
    }
    Argument {
        violations: given.violations,
        rest: within_bases(given.rest, Bases::empty()),
    }
}

/// An argument that is a pointer, and what of it goes on.
pub fn argument_at<I: IntDomain>(call: Call, row: &[Cell<I>], at: usize) -> Argument<I>
    ensures near { IsNearPointer I.numbers result.rest }
    ensures value { result ≡ argument_at I.lattice I.numbers (call_view call.entry) row.now at }
{
    let bases = call.flow.bases.as_slice();
    let pointer = argument_value(call, row, at).pointer;
    placed(check_argument(bases, row, pointer))
}

/// The scan of a string argument that was checked.
pub fn scan_at<I: IntDomain>(call: Call, row: &[Cell<I>], given: Argument<I>) -> Scanned<I>
    requires { IsNearPointer I.numbers given.rest }
    ensures near { IsNear (I.numbers.bounds result.length) }
    ensures value { result ≡ scan_at I.lattice I.numbers (call_view call.entry) row.now given }
{
    scan(call.flow.bases.as_slice(), row, given.rest)
}

/// The trail behind the check of a pointer argument.
pub fn given_trail<I: IntDomain>(trail: Trail, given: Argument<I>) -> Trail
    ensures { result ≡ given_trail trail given }
{
    trail.check(given.violations, !given.rest.bases.is_empty())
}

/// What a scan may violate.
fn scan_violations<I: IntDomain>(found: Scanned<I>) -> Violations
    ensures { result ≡ scan_violations found }
{
    string_violations(!found.unknown.is_empty())
}

/// The trail behind the scan of a string.
pub fn scanned_trail<I: IntDomain>(trail: Trail, found: Scanned<I>) -> Trail
    ensures { result ≡ scanned_trail trail found }
{
    trail.check(scan_violations(found), !found.bases.is_empty())
}

fn pointer_trail<I: IntDomain>(call: Call, row: &[Cell<I>], at: usize, trail: Trail) -> Trail
    ensures { result ≡ pointer_trail I.lattice I.numbers (call_view call.entry) row.now at trail }
{
    given_trail(trail, argument_at(call, row, at))
}

fn scan_trail<I: IntDomain>(call: Call, row: &[Cell<I>], at: usize, trail: Trail) -> Trail
    ensures { result ≡ scan_trail I.lattice I.numbers (call_view call.entry) row.now at trail }
{
    let given = argument_at(call, row, at);
    scanned_trail(trail, scan_at(call, row, given))
}

/// `puts`.
#[tactic(auto, unfolding(crate::specs::Outputs::plan_puts))]
pub fn plan_puts<I: IntDomain>(call: Call, row: &[Cell<I>]) -> Plan<I>
    ensures { result ≡ plan_puts I.lattice I.numbers (call_view call.entry) row.now }
{
    let trail = pointer_trail(call, row, 0, Trail::start(Violations::none()));
    let trail = scan_trail(call, row, 0, trail);
    planned(
        trail,
        Effect::Result(Value::of_number(I::one(0), Labels::none())),
    )
}

/// Whether the argument can be a number.
fn has_number<I: IntDomain>(call: Call, row: &[Cell<I>], at: usize) -> bool
    ensures { result ≡ has_number I.lattice I.numbers (call_view call.entry) row.now at }
{
    argument_value(call, row, at).num.bounds().is_some()
}

/// The trail behind an argument that is a number, or a pointer that is checked.
fn printed_trail<I: IntDomain>(number: bool, trail: Trail, given: Argument<I>) -> Trail
    ensures { result ≡ printed_trail number trail given }
{
    trail.check(given.violations, number || !given.rest.bases.is_empty())
}

/// The trail behind an argument that is a number, or a string.
fn text_trail<I: IntDomain>(number: bool, trail: Trail, found: Scanned<I>) -> Trail
    ensures { result ≡ text_trail number trail found }
{
    trail.check(scan_violations(found), number || !found.bases.is_empty())
}

/// The trail behind the checks of the arguments behind a format.
#[tactic(auto, using(crate::proofs::Trails::pointer_trails_next))]
fn pointer_trails<I: IntDomain>(call: Call, row: &[Cell<I>], count: usize, trail: Trail) -> Trail
    ensures { result ≡ pointer_trails I.lattice I.numbers (call_view call.entry) row.now count trail }
{
    let mut checked = trail;
    for at in 0..count {
        checked = printed_trail_at(call, row, at.saturating_add(1), checked);
    }
    checked
}

fn printed_trail_at<I: IntDomain>(call: Call, row: &[Cell<I>], at: usize, trail: Trail) -> Trail
    ensures { result ≡ printed_trail_at I.lattice I.numbers (call_view call.entry) row.now at trail }
{
    let number = has_number(call, row, at);
    printed_trail(number, trail, argument_at(call, row, at))
}

/// The trail behind the scans of the arguments behind a format.
#[tactic(auto, using(crate::proofs::Trails::scan_trails_next))]
fn scan_trails<I: IntDomain>(call: Call, row: &[Cell<I>], count: usize, trail: Trail) -> Trail
    ensures { result ≡ scan_trails I.lattice I.numbers (call_view call.entry) row.now count trail }
{
    let mut checked = trail;
    for at in 0..count {
        checked = text_trail_at(call, row, at.saturating_add(1), checked);
    }
    checked
}

fn text_trail_at<I: IntDomain>(call: Call, row: &[Cell<I>], at: usize, trail: Trail) -> Trail
    ensures { result ≡ text_trail_at I.lattice I.numbers (call_view call.entry) row.now at trail }
{
    let number = has_number(call, row, at);
    let given = argument_at(call, row, at);
    text_trail(number, trail, scan_at(call, row, given))
}

/// `printf`: its format is a literal, and not scanned; each argument behind it that is a pointer is a
/// string.
#[tactic(auto, unfolding(crate::specs::Outputs::plan_printf))]
pub fn plan_printf<I: IntDomain>(call: Call, row: &[Cell<I>]) -> Plan<I>
    ensures { result ≡ plan_printf I.lattice I.numbers (call_view call.entry) row.now }
{
    let count = call.arguments.len().saturating_sub(1);
    let trail = pointer_trail(call, row, 0, Trail::start(Violations::none()));
    let trail = pointer_trails(call, row, count, trail);
    let trail = scan_trails(call, row, count, trail);
    let most = kind_of(&call.flow.model, Class::Int, true).greatest();
    planned(
        trail,
        Effect::Result(Value::of_number(between_or_bottom(0, most), Labels::none())),
    )
}

/// The length of a string, in the range of size_t.
fn length_of<I: IntDomain>(model: &Model, found: Scanned<I>) -> I
    ensures { result ≡ length_of I.lattice I.numbers model.now found }
{
    let most = kind_of(model, Class::Pointer, false).greatest();
    of_range(range_met(found.length.bounds(), 0, most))
}

fn strlen_of<I: IntDomain>(given: Argument<I>, found: Scanned<I>, length: I) -> Plan<I>
    ensures { result ≡ strlen_of I.lattice I.numbers given found length }
{
    let trail = Trail::start(given.violations);
    let trail = trail.check(Violations::none(), !given.rest.bases.is_empty());
    let trail = trail.check(scan_violations(found), length.bounds().is_some());
    planned(
        trail,
        Effect::Result(Value::of_number(length, Labels::none())),
    )
}

/// `strlen`: the length, in the range of size_t, without labels.
#[tactic(auto, unfolding(crate::specs::Outputs::plan_strlen))]
pub fn plan_strlen<I: IntDomain>(call: Call, row: &[Cell<I>]) -> Plan<I>
    ensures { result ≡ plan_strlen I.lattice I.numbers (call_view call.entry) row.now }
{
    let given = argument_at(call, row, 0);
    let found = scan_at(call, row, given);
    strlen_of(given, found, length_of(&call.flow.model, found))
}

/// `strcmp`: -1, 0 or 1.
#[tactic(auto, unfolding(crate::specs::Outputs::plan_strcmp))]
pub fn plan_strcmp<I: IntDomain>(call: Call, row: &[Cell<I>]) -> Plan<I>
    ensures { result ≡ plan_strcmp I.lattice I.numbers (call_view call.entry) row.now }
{
    let left = argument_at(call, row, 0);
    let right = argument_at(call, row, 1);
    let trail = Trail::start(left.violations);
    let trail = trail.check(Violations::none(), !left.rest.bases.is_empty());
    let trail = trail.check(right.violations, !right.rest.bases.is_empty());
    let first = scan_at(call, row, left);
    let second = scan_at(call, row, right);
    let trail = scanned_trail(scanned_trail(trail, first), second);
    planned(
        trail,
        Effect::Result(Value::of_number(between_or_bottom(-1, 1), Labels::none())),
    )
}
