//! The pointer arguments of library functions, and the room that they have.
ghost use Rattle.std.specs.Prelude.{◌≡◌};
ghost use Rattle.cc_base.specs.IntegerDomains.{IsNear};
ghost use Rattle.pointer_domain.specs.PointerTables.{IsNearPointer};
ghost use Rattle.transfer_checks.specs.LibraryArguments.{is_above_room, cut_by, may_be_none, writes_literal, kept_after, after_write, sum_of, difference_of, last_touched, touched_between, touched_from, argument_violations, within_bases, check_argument, passes_room, cut_by_room, end_of, touched_window};

use crate::touches::{any_literal, into_bases};
use crate::violation_sets::Violations;
use c_layout::BaseInfo;
use cc_base::{IntDomain, range_met, upper_or};
use pointer_domain::{Bases, Pointers};
use store::{Window, any_freed, live_of, near_pointer, window_within, writable_of};
use value_domain::values::Cell;

/// What a pointer argument may violate, and the pointers that go on: neither null nor ended, into
/// bases that may be live.
#[derive(Clone, Copy)]
pub struct Argument<I> {
    pub violations: Violations,
    pub rest: Pointers<I>,
}

/// What a pointer argument may violate.
fn argument_violations<I: IntDomain>(
    bases: &[BaseInfo],
    row: &[Cell<I>],
    p: Pointers<I>,
) -> Violations
    ensures { result ≡ argument_violations I.lattice I.numbers bases.now row.now p }
{
    let mut found = Violations::none();
    found.nullref = p.null || p.ended;
    found.accfree = any_freed(bases, row, p.bases);
    found
}

/// The check of a pointer argument.
#[tactic(auto, unfolding(crate::specs::LibraryArguments::check_argument))]
pub fn check_argument<I: IntDomain>(
    bases: &[BaseInfo],
    row: &[Cell<I>],
    p: Pointers<I>,
) -> Argument<I>
    ensures near { IsNearPointer I.numbers result.rest }
    ensures value { result ≡ check_argument I.lattice I.numbers bases.now row.now p }
{
    let live = live_of(bases, row, p.bases);
    Argument {
        violations: argument_violations(bases, row, p),
        rest: within_bases(p, live),
    }
}

/// The pointers that are into the bases of a set alone.
pub fn within_bases<I: IntDomain>(p: Pointers<I>, set: Bases) -> Pointers<I>
    ensures near { IsNearPointer I.numbers result }
    ensures value { result ≡ within_bases I.lattice I.numbers p set }
{
    near_pointer(into_bases(p, set, p.rel))
}

fn is_above_room(need: Option<(i128, i128)>, room: Option<(i128, i128)>) -> bool
    ensures { result ≡ is_above_room need room }
{
    match (need, room) {
        (Some(n), Some(q)) => n.1 > q.0,
        _ => false,
    }
}

/// Whether so many bytes may pass the room of the pointer.
pub fn passes_room<I: IntDomain>(need: Option<(i128, i128)>, p: Pointers<I>) -> bool
    requires { IsNearPointer I.numbers p }
    ensures { result ≡ passes_room I.numbers need p }
{
    is_above_room(need, p.rooms())
}

fn cut_by(need: Option<(i128, i128)>, room: Option<(i128, i128)>) -> Option<(i128, i128)>
    ensures { result ≡ cut_by need room }
{
    match room {
        None => None,
        Some(room) => range_met(need, 0, room.1),
    }
}

/// The counts of bytes that the room of the pointer can hold.
pub fn cut_by_room<I: IntDomain>(need: Option<(i128, i128)>, p: Pointers<I>) -> Option<(i128, i128)>
    requires { IsNearPointer I.numbers p }
    ensures { result ≡ cut_by_room I.numbers need p }
{
    cut_by(need, p.rooms())
}

fn sum_of(a: i128, b: i128) -> i128
    ensures { result ≡ sum_of a b }
{
    a.saturating_add(b)
}

fn difference_of(a: i128, b: i128) -> i128
    ensures { result ≡ difference_of a b }
{
    a.saturating_sub(b)
}

/// The last byte of `count` bytes from an offset on, below an end.
fn last_touched(offset: i128, count: i128, end: i128) -> i128
    ensures { result ≡ last_touched offset count end }
{
    let last = sum_of(offset, difference_of(count, 1));
    last.min(difference_of(end, 1))
}

/// The bytes of `count` bytes from one of the offsets on, below an end.
fn touched_from(start: Option<(i128, i128)>, count: i128, end: i128) -> Option<Window>
    ensures { result ≡ touched_from start count end }
{
    match start {
        None => None,
        Some(start) => touched_between(start.0, last_touched(start.1, count, end), count),
    }
}

/// The bytes from the first to the last one, of `count` bytes.
fn touched_between(first: i128, last: i128, count: i128) -> Option<Window>
    ensures { result ≡ touched_between first last count }
{
    if count < 1 {
        None
    } else {
        window_within(range_met(Some((first, last)), first, last))
    }
}

/// The greatest upper bound.
fn end_of<I: IntDomain>(p: Pointers<I>) -> i128
    ensures { result ≡ end_of I.numbers p }
{
    sum_of(upper_or(0, p.lo.bounds()), upper_or(0, p.len.bounds()))
}

/// The bytes that a call may touch, which begins at the pointer and goes over so many bytes at most:
/// up to the upper bound.
#[tactic(auto, unfolding(crate::specs::LibraryArguments::touched_window))]
pub fn touched_window<I: IntDomain>(p: Pointers<I>, need: Option<(i128, i128)>) -> Option<Window>
    requires { IsNearPointer I.numbers p }
    ensures { result ≡ touched_window I.numbers p need }
{
    touched_from(p.offsets(), upper_or(0, need), end_of(p))
}

/// Whether a write of so many bytes may go into a literal.
pub fn writes_literal(bases: &[BaseInfo], set: Bases, need: Option<(i128, i128)>) -> bool
    ensures { result ≡ writes_literal bases.now set need }
{
    upper_or(0, need) >= 1 && any_literal(bases, set)
}

fn may_be_none(need: Option<(i128, i128)>) -> bool
    ensures { result ≡ may_be_none need }
{
    match need {
        None => false,
        Some(n) => n.0 <= 0,
    }
}

/// The bases that go on after a write of so many bytes: literals only where none may be written.
pub fn after_write(bases: &[BaseInfo], set: Bases, need: Option<(i128, i128)>) -> Bases
    ensures { result ≡ after_write bases.now set need }
{
    if need.is_none() {
        Bases::empty()
    } else {
        kept_after(bases, set, may_be_none(need))
    }
}

fn kept_after(bases: &[BaseInfo], set: Bases, none: bool) -> Bases
    ensures { result ≡ kept_after bases.now set none }
{
    if none { set } else { writable_of(bases, set) }
}
