//! `strcpy`, `strncpy`, `strcat` and `fgets`.
ghost use Rattle.std.specs.Prelude.{◌≡◌, Some};
ghost use Rattle.transfer_library_plans.specs.Calls.{call_view};
ghost use Rattle.transfer_library.specs.StringCalls.{one_more, one_less, text_effect, text_from_start, two_given, source_characters, strcpy_scanned, plan_strcpy, append_start, window_from_place, window_from_offset, append_window, most_appended, appended, append_effect, strcat_of, strcat_to, strcat_place, strcat_scanned, plan_strcat, line_count, line_trail, line_rule, fgets_given, reads_no_string, plan_strncpy, input_characters, plan_fgets};
ghost use Rattle.pointer_domain.specs.PointerTables.{IsNearPointer};
ghost use Rattle.cc_base.specs.IntegerDomains.{IsNear};

use crate::memory_calls::{
    Target, check_literals, check_room, is_one_byte, lower_of, nothing_written,
};
use c_layout::{Class, Model};
use cc_base::{IntDomain, between_or_bottom, of_range, range_met, upper_or};
use pointer_domain::{Bases, Pointers};
use store::{Window, added_ranges, kind_of, near_number, window_within, writable_of};
use transfer_checks::{
    Argument, Scanned, Violations, passes_room, sink_violations, touched_window, within_bases,
};
use transfer_library_plans::{
    Call, Effect, Plan, Trail, argument_at, argument_value, given_trail, planned, scan_at,
    scanned_trail, string_violations,
};
use transfer_library_writes::{Characters, TextWrite, ZeroRule, characters_of, reads_blank};
use value_domain::values::{Cell, Labels, Value};

/// One more than the numbers.
fn one_more<I: IntDomain>(length: I) -> Option<(i128, i128)>
    ensures { result ≡ one_more I.numbers length }
{
    added_ranges(length.bounds(), Some((1, 1)))
}

/// The lengths of a text for which so many bytes are needed.
fn one_less<I: IntDomain>(need: Option<(i128, i128)>) -> I
    ensures near { IsNear (I.numbers.bounds result) }
    ensures value { result ≡ one_less I.lattice I.numbers need }
{
    match need {
        None => near_number(I::bottom()),
        Some((lo, hi)) => near_number(of_range(Some((lo.saturating_sub(1), hi.saturating_sub(1))))),
    }
}

/// A text write of a target from the given start, or nothing where no byte can be written.
fn text_effect<I: IntDomain>(
    call: Call,
    target: Target<I>,
    start: Option<Window>,
    window: Option<Window>,
    one_byte: bool,
    characters: Characters<I>,
    zero: ZeroRule<I>,
) -> Effect<I>
    ensures { result ≡ text_effect I.lattice (call_view call.entry) target start window one_byte characters zero }
{
    let result = Value::of_pointer(target.rest);
    match (start, window) {
        (Some(start), Some(window)) => Effect::Text(
            TextWrite {
                bases: writable_of(call.flow.bases.as_slice(), target.rest.bases),
                start,
                window,
                one_byte,
                characters,
                zero,
            },
            result,
        ),
        _ => nothing_written(target),
    }
}

/// The plan of a text that is written from the first byte of its target on.
fn text_from_start<I: IntDomain>(
    call: Call,
    target: Target<I>,
    characters: Characters<I>,
    zero: ZeroRule<I>,
) -> Plan<I>
    requires target { IsNearPointer I.numbers target.rest }
    ensures { result ≡ text_from_start I.lattice I.numbers (call_view call.entry) target characters zero }
{
    let start = window_within(target.rest.offsets());
    let window = touched_window(target.rest, target.count);
    let one_byte = is_one_byte(target.count);
    planned(
        target.trail,
        text_effect(call, target, start, window, one_byte, characters, zero),
    )
}

/// The trail of a call whose first two arguments are pointers.
fn two_given<I: IntDomain>(to: Argument<I>, from: Argument<I>) -> Trail
    ensures { result ≡ two_given to from }
{
    given_trail(given_trail(Trail::start(Violations::none()), to), from)
}

/// The characters of a source, of which so many bytes are read.
fn source_characters<I: IntDomain>(
    call: Call,
    row: &[Cell<I>],
    source: Pointers<I>,
    need: Option<(i128, i128)>,
) -> Characters<I>
    requires source { IsNearPointer I.numbers source }
    ensures { result ≡ source_characters I.lattice I.numbers (call_view call.entry) row.now source need }
{
    let read = touched_window(source, need);
    let bases = call.flow.bases.as_slice();
    characters_of(&call.flow.model, bases, row, source.bases, read)
}

/// The plan of `strcpy` with its arguments and the scan of its source.
fn strcpy_scanned<I: IntDomain>(
    call: Call,
    row: &[Cell<I>],
    to: Argument<I>,
    from: Argument<I>,
    found: Scanned<I>,
) -> Plan<I>
    requires to { IsNearPointer I.numbers to.rest }
    requires from { IsNearPointer I.numbers from.rest }
    requires found { IsNear (I.numbers.bounds found.length) }
    ensures { result ≡ strcpy_scanned I.lattice I.numbers (call_view call.entry) row.now to from found }
{
    let need = one_more(found.length);
    let trail = scanned_trail(two_given(to, from), found);
    let (trail, cut) = check_room(trail, to.rest, need);
    let target = check_literals(call, trail, to.rest, cut);
    let source = within_bases(from.rest, found.bases);
    let characters = source_characters(call, row, source, cut);
    text_from_start(call, target, characters, ZeroRule::Text(one_less(cut)))
}

/// The plan of `strcpy`.
pub fn plan_strcpy<I: IntDomain>(call: Call, row: &[Cell<I>]) -> Plan<I>
    ensures { result ≡ plan_strcpy I.lattice I.numbers (call_view call.entry) row.now }
{
    let to = argument_at(call, row, 0);
    let from = argument_at(call, row, 1);
    let found = scan_at(call, row, from);
    strcpy_scanned(call, row, to, from, found)
}

/// The written offsets of `strcat`: behind the text that is there.
fn append_start<I: IntDomain>(p: Pointers<I>, there: I) -> Option<(i128, i128)>
    requires p { IsNearPointer I.numbers p }
    requires there { IsNear (I.numbers.bounds there) }
    ensures { result ≡ append_start I.numbers p there }
{
    added_ranges(p.offsets(), there.bounds())
}

/// The bytes of a window from an offset on that is not below 0.
fn window_from_place(whole: Window, lo: i128) -> Option<Window>
    ensures { result ≡ window_from_place whole lo }
{
    let lo = u64::try_from(lo).ok()?;
    whole.met(lo, u64::MAX)
}

/// The bytes of a window from an offset on.
fn window_from_offset(whole: Window, lo: i128) -> Option<Window>
    ensures { result ≡ window_from_offset whole lo }
{
    if lo < 0 {
        return Some(whole);
    }
    window_from_place(whole, lo)
}

/// The bytes that `strcat` may write: those of the new text, up to the upper bound.
fn append_window<I: IntDomain>(
    p: Pointers<I>,
    there: I,
    cut: Option<(i128, i128)>,
) -> Option<Window>
    requires p { IsNearPointer I.numbers p }
    requires there { IsNear (I.numbers.bounds there) }
    ensures { result ≡ append_window I.numbers p there cut }
{
    let whole = touched_window(p, cut)?;
    let (lo, _) = append_start(p, there)?;
    window_from_offset(whole, lo)
}

/// The greatest length of a text that is appended to those that are there, with its zero, in so many
/// bytes.
fn most_appended(there: Option<(i128, i128)>, cut: Option<(i128, i128)>) -> i128
    ensures { result ≡ most_appended there cut }
{
    let last = upper_or(0, cut).saturating_sub(1);
    last.saturating_sub(lower_of(there))
}

/// The lengths of an appended text for which there is room.
fn appended<I: IntDomain>(there: I, added: I, cut: Option<(i128, i128)>) -> I
    ensures { result ≡ appended I.lattice I.numbers there added cut }
{
    let most = most_appended(there.bounds(), cut);
    of_range(range_met(added.bounds(), 0, most))
}

/// The write of an appended text of these lengths.
fn append_effect<I: IntDomain>(
    call: Call,
    target: Target<I>,
    there: Scanned<I>,
    characters: Characters<I>,
    length: I,
) -> Effect<I>
    requires there { IsNear (I.numbers.bounds there.length) }
    requires target { IsNearPointer I.numbers target.rest }
    ensures { result ≡ append_effect I.lattice I.numbers (call_view call.entry) target there characters length }
{
    let start = window_within(append_start(target.rest, there.length));
    let window = append_window(target.rest, there.length, target.count);
    let zero = ZeroRule::Append(length, there.unknown);
    text_effect(call, target, start, window, false, characters, zero)
}

/// The plan of `strcat` with its target.
fn strcat_to<I: IntDomain>(
    call: Call,
    row: &[Cell<I>],
    from: Argument<I>,
    there: Scanned<I>,
    added: Scanned<I>,
    target: Target<I>,
) -> Plan<I>
    requires from { IsNearPointer I.numbers from.rest }
    requires there { IsNear (I.numbers.bounds there.length) }
    requires target { IsNearPointer I.numbers target.rest }
    ensures { result ≡ strcat_to I.lattice I.numbers (call_view call.entry) row.now from there added target }
{
    let length = appended(there.length, added.length, target.count);
    let source = within_bases(from.rest, added.bases);
    let characters = source_characters(call, row, source, one_more(length));
    planned(
        target.trail,
        append_effect(call, target, there, characters, length),
    )
}

/// The plan of `strcat` with its arguments, their scans, and the pointer to the text that is there.
fn strcat_place<I: IntDomain>(
    call: Call,
    row: &[Cell<I>],
    to: Argument<I>,
    from: Argument<I>,
    there: Scanned<I>,
    added: Scanned<I>,
    place: Pointers<I>,
) -> Plan<I>
    requires from { IsNearPointer I.numbers from.rest }
    requires there { IsNear (I.numbers.bounds there.length) }
    requires place { IsNearPointer I.numbers place }
    ensures { result ≡ strcat_place I.lattice I.numbers (call_view call.entry) row.now to from there added place }
{
    let trail = scanned_trail(scanned_trail(two_given(to, from), there), added);
    let need = added_ranges(there.length.bounds(), one_more(added.length));
    let (trail, cut) = check_room(trail, place, need);
    let target = check_literals(call, trail, place, cut);
    strcat_to(call, row, from, there, added, target)
}

/// The plan of `strcat` with its arguments and their scans.
fn strcat_scanned<I: IntDomain>(
    call: Call,
    row: &[Cell<I>],
    to: Argument<I>,
    from: Argument<I>,
    there: Scanned<I>,
    added: Scanned<I>,
) -> Plan<I>
    requires to { IsNearPointer I.numbers to.rest }
    requires from { IsNearPointer I.numbers from.rest }
    requires there { IsNear (I.numbers.bounds there.length) }
    ensures { result ≡ strcat_scanned I.lattice I.numbers (call_view call.entry) row.now to from there added }
{
    let place = within_bases(to.rest, there.bases);
    strcat_place(call, row, to, from, there, added, place)
}

/// The plan of `strcat`.
pub fn plan_strcat<I: IntDomain>(call: Call, row: &[Cell<I>]) -> Plan<I>
    ensures { result ≡ plan_strcat I.lattice I.numbers (call_view call.entry) row.now }
{
    let to = argument_at(call, row, 0);
    let from = argument_at(call, row, 1);
    let there = scan_at(call, row, to);
    let added = scan_at(call, row, from);
    strcat_scanned(call, row, to, from, there, added)
}

/// Whether `strncpy` may read bytes before a zero that are no string: in a base where its source is not
/// known to end, it may read past the room, or an indeterminate byte.
fn reads_no_string<I: IntDomain>(
    call: Call,
    row: &[Cell<I>],
    from: Pointers<I>,
    unknown: Bases,
    count: Option<(i128, i128)>,
) -> bool
    requires { IsNearPointer I.numbers from }
    ensures { result ≡ reads_no_string I.lattice I.numbers (call_view call.entry) row.now from unknown count }
{
    let bases = call.flow.bases.as_slice();
    let blank = match touched_window(from, count) {
        None => false,
        Some(window) => reads_blank(&call.flow.model, bases, row, unknown, window),
    };
    !unknown.is_empty() && (passes_room(count, from) || blank)
}

/// The plan of `strncpy`.
#[tactic(auto, unfolding(crate::specs::StringCalls::plan_strncpy))]
pub fn plan_strncpy<I: IntDomain>(call: Call, row: &[Cell<I>]) -> Plan<I>
    ensures { result ≡ plan_strncpy I.lattice I.numbers (call_view call.entry) row.now }
{
    let n = argument_value(call, row, 2);
    let count = n.num.bounds();
    let to = argument_at(call, row, 0);
    let from = argument_at(call, row, 1);
    let trail = Trail::start(sink_violations(n.labels));
    let trail = trail.check(to.violations, !to.rest.bases.is_empty());
    let trail = trail.check(from.violations, !from.rest.bases.is_empty());
    let scanned = scan_at(call, row, from);
    let no_string = reads_no_string(call, row, from.rest, scanned.unknown, count);
    let trail = trail.check(string_violations(no_string), true);
    let (trail, cut) = check_room(trail, to.rest, count);
    let target = check_literals(call, trail, to.rest, cut);
    let characters = source_characters(call, row, from.rest, cut);
    text_from_start(call, target, characters, ZeroRule::Any)
}

/// The characters of input: all of their type, with the labels of input.
fn input_characters<I: IntDomain>(model: &Model) -> Characters<I>
    ensures { result ≡ input_characters I.lattice I.numbers model.now }
{
    let signed = kind_of(model, Class::Char, true);
    let unsigned = kind_of(model, Class::Char, false);
    Characters {
        signed: between_or_bottom(signed.least(), signed.greatest()),
        unsigned: between_or_bottom(unsigned.least(), unsigned.greatest()),
        labels: Labels::input(kind_of(model, Class::Char, model.char_signed)),
    }
}

/// How many characters `fgets` may be given room for: 1 at least.
fn line_count<I: IntDomain>(n: Value<I>) -> Option<(i128, i128)>
    ensures { result ≡ line_count I.numbers n }
{
    range_met(n.num.bounds(), 1, i128::MAX)
}

/// The trail behind the arguments of `fgets`.
fn line_trail<I: IntDomain>(n: Value<I>, to: Argument<I>) -> Trail
    ensures { result ≡ line_trail I.numbers n to }
{
    let trail = given_trail(Trail::start(sink_violations(n.labels)), to);
    trail.check(Violations::none(), line_count(n).is_some())
}

/// Where the zero behind a line may stand: at any of its bytes.
fn line_rule<I: IntDomain>(cut: Option<(i128, i128)>) -> ZeroRule<I>
    ensures { result ≡ line_rule I.lattice I.numbers cut }
{
    let most = upper_or(1, cut).saturating_sub(1);
    ZeroRule::Text(between_or_bottom(0, most))
}

/// The plan of `fgets` with its arguments.
fn fgets_given<I: IntDomain>(call: Call, n: Value<I>, to: Argument<I>) -> Plan<I>
    requires to { IsNearPointer I.numbers to.rest }
    ensures { result ≡ fgets_given I.lattice I.numbers (call_view call.entry) n to }
{
    let (trail, cut) = check_room(line_trail(n, to), to.rest, line_count(n));
    let target = check_literals(call, trail, to.rest, cut);
    let characters = input_characters(&call.flow.model);
    text_from_start(call, target, characters, line_rule(cut))
}

/// The plan of `fgets` on success: its checks, and then the line that is written.
pub fn plan_fgets<I: IntDomain>(call: Call, row: &[Cell<I>]) -> Plan<I>
    ensures { result ≡ plan_fgets I.lattice I.numbers (call_view call.entry) row.now }
{
    let n = argument_value(call, row, 1);
    let to = argument_at(call, row, 0);
    fgets_given(call, n, to)
}
