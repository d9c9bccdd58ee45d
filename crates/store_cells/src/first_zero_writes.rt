//! What writes make of the first zeros of a base.
ghost use Rattle.std.specs.Prelude.{◌≡◌, length};
ghost use Rattle.cc_base.specs.IntegerDomains.{IsNear};
ghost use Rattle.store_cells.specs.FirstZeroWrites.{last_of, has_no_bytes, target_at, zero_target, if_whole, covered, first_covered, covering_part, lies_up_to, is_determinate_before, any_zero, no_zero, zero_first, offsets_of, sure_or_joined, put_at, put_target, put_part, put_character, forget_target, forget_part, forget_zeros, set_part, set_zeros};

use crate::access_windows::Window;
use crate::near_values::near_number;
use crate::row_positions::{put_zero, zero_at, zero_position};
use c_layout::{BaseInfo, ZeroPart};
use cc_base::{IntDomain, Lattice, Tri, between_or_bottom};
use value_domain::strings::{END, FirstZero};
use value_domain::values::Cell;

/// The part of an array of characters that a window meets: the offsets from the array's first byte,
/// and whether all of the window lies in the array.
#[derive(Clone, Copy, PartialEq, Eq, Debug)]
pub struct ZeroTarget {
    pub local: Window,
    pub whole: bool,
}

/// The last offset of an array at an offset, counted from the first byte of its object. The part of a
/// whole heap instance has none but the greatest.
fn last_of(offset: u64, size: Option<u64>) -> u64
    ensures { result ≡ last_of offset size }
{
    match size {
        None => u64::MAX,
        Some(size) => offset.saturating_add(size.saturating_sub(1)),
    }
}

/// Whether an array has no bytes.
fn has_no_bytes(size: Option<u64>) -> bool
    ensures { result ≡ has_no_bytes size }
{
    match size {
        None => false,
        Some(size) => size == 0,
    }
}

/// The array of a part as the target of a window that meets it in `met`.
fn target_at(part: ZeroPart, window: Window, met: Option<Window>) -> Option<ZeroTarget>
    ensures { result ≡ target_at part window met }
{
    match met {
        None => None,
        Some(met) => Some(ZeroTarget {
            local: met.from_start(part.offset),
            whole: window.lies_within(part.offset, last_of(part.offset, part.size)),
        }),
    }
}

/// Where a window meets the array; None where it does not. An array of no bytes is met nowhere.
pub fn zero_target(part: ZeroPart, window: Window) -> Option<ZeroTarget>
    ensures { result ≡ zero_target part window }
{
    if has_no_bytes(part.size) {
        None
    } else {
        target_at(
            part,
            window,
            window.met(part.offset, last_of(part.offset, part.size)),
        )
    }
}

/// The number of the first-zero part in whose array the whole window lies, and the offsets from the
/// array's first byte.
pub fn covering_part(base: &BaseInfo, window: Window) -> Option<(usize, Window)>
    ensures { result ≡ covering_part base.now window }
{
    let parts = base.shape.zeros.as_slice();
    let mut found = None;
    for at in 0..parts.len() {
        found = first_covered(window, parts[at], at, found);
    }
    found
}

fn first_covered(
    window: Window,
    part: ZeroPart,
    at: usize,
    found: Option<(usize, Window)>,
) -> Option<(usize, Window)>
    ensures { result ≡ first_covered window part at found }
{
    match found {
        None => covered(at, part, window),
        Some(found) => Some(found),
    }
}

fn if_whole(at: usize, target: Option<ZeroTarget>) -> Option<(usize, Window)>
    ensures { result ≡ if_whole at target }
{
    match target {
        None => None,
        Some(target) => {
            if target.whole {
                Some((at, target.local))
            } else {
                None
            }
        }
    }
}

fn covered(at: usize, part: ZeroPart, window: Window) -> Option<(usize, Window)>
    ensures { result ≡ covered at part window }
{
    if_whole(at, zero_target(part, window))
}

/// Whether no zero lies before the offset, and there is one.
fn lies_up_to(zero: Option<(i128, i128)>, at: u64) -> bool
    ensures { result ≡ lies_up_to zero at }
{
    match zero {
        None => true,
        Some(p) => at as i128 <= p.0 && p.1 != END,
    }
}

/// Whether each byte at the offsets is determinate, since none lies behind the first zero byte. A
/// first zero that stands for nothing stands for no array.
pub fn is_determinate_before<I: IntDomain>(zero: FirstZero<I>, local: Window) -> bool
    ensures { result ≡ is_determinate_before I.numbers zero local }
{
    lies_up_to(zero.at.bounds(), local.hi)
}

/// The first zeros from 0 to END: nothing is known.
pub fn any_zero<I: IntDomain>() -> FirstZero<I>
    ensures { result ≡ any_zero I.lattice I.numbers }
{
    FirstZero {
        at: between_or_bottom(0, END),
    }
}

/// No zero byte behind determinate ones.
pub fn no_zero<I: IntDomain>() -> FirstZero<I>
    ensures { result ≡ no_zero I.numbers }
{
    FirstZero { at: I::one(END) }
}

/// The first byte is zero.
pub fn zero_first<I: IntDomain>() -> FirstZero<I>
    ensures { result ≡ zero_first I.numbers }
{
    FirstZero { at: I::one(0) }
}

/// The offsets of a window as a value.
pub fn offsets_of<I: IntDomain>(window: Window) -> I
    ensures near { IsNear (I.numbers.bounds result) }
    ensures value { result ≡ offsets_of I.lattice I.numbers window }
{
    near_number(between_or_bottom(window.lo as i128, window.hi as i128))
}

/// The new first zero; perhaps the old one too, where the write may be to something else.
fn sure_or_joined<I: IntDomain>(sure: bool, old: FirstZero<I>, new: FirstZero<I>) -> FirstZero<I>
    ensures { result ≡ sure_or_joined I.lattice sure old new }
{
    if sure { new } else { old.join(new) }
}

/// The first zero after a character of this truth of being zero was written at the target: where the
/// base may stand for other instances, or the write may miss the array, perhaps the old one.
fn put_at<I: IntDomain>(
    old: FirstZero<I>,
    target: ZeroTarget,
    zero: Tri,
    alone: bool,
) -> FirstZero<I>
    requires { IsNear (I.numbers.bounds old.at) }
    ensures { result ≡ put_at I.lattice I.numbers old target zero alone }
{
    let new = old.put(offsets_of(target.local), zero);
    sure_or_joined(alone && target.whole, old, new)
}

#[tactic(auto, unfolding(crate::specs::FirstZeroWrites::put_target))]
fn put_target<I: IntDomain>(
    row: &mut [Cell<I>],
    position: usize,
    target: Option<ZeroTarget>,
    zero: Tri,
    alone: bool,
)
    ensures length { length row.new ≡ length row.old }
    ensures row { row.new ≡ put_target I.lattice I.numbers row.old position target zero alone }
{
    if let Some(target) = target {
        let old = zero_at(row, position);
        put_zero(row, position, put_at(old, target, zero, alone));
    }
}

/// A character that is zero, or not, is written in the window. `alone` says that the pointer has this
/// base alone, which stands for one instance.
#[tactic(auto, unfolding(crate::specs::FirstZeroWrites::put_character))]
pub fn put_character<I: IntDomain>(
    base: &BaseInfo,
    row: &mut [Cell<I>],
    window: Window,
    zero: Tri,
    alone: bool,
)
    ensures length { length row.new ≡ length row.old }
    ensures row { row.new ≡ put_character I.lattice I.numbers base.now window zero alone row.old }
{
    let parts = base.shape.zeros.as_slice();
    for at in 0..parts.len() {
        put_target(
            row,
            zero_position(base, at),
            zero_target(parts[at], window),
            zero,
            alone,
        );
    }
}

#[tactic(auto, unfolding(crate::specs::FirstZeroWrites::forget_target))]
fn forget_target<I: IntDomain>(row: &mut [Cell<I>], position: usize, target: Option<ZeroTarget>)
    ensures length { length row.new ≡ length row.old }
    ensures row { row.new ≡ forget_target I.lattice I.numbers row.old position target }
{
    if target.is_some() {
        put_zero(row, position, any_zero());
    }
}

/// Nothing is known any more of the arrays that the window meets.
#[tactic(auto, unfolding(crate::specs::FirstZeroWrites::forget_zeros))]
pub fn forget_zeros<I: IntDomain>(base: &BaseInfo, row: &mut [Cell<I>], window: Window)
    ensures length { length row.new ≡ length row.old }
    ensures row { row.new ≡ forget_zeros I.lattice I.numbers base.now window row.old }
{
    let parts = base.shape.zeros.as_slice();
    for at in 0..parts.len() {
        forget_target(row, zero_position(base, at), zero_target(parts[at], window));
    }
}

/// Each first zero of the base is this one.
#[tactic(auto, using(crate::specs::TurnLaws::turns_next), unfolding(crate::specs::FirstZeroWrites::set_zeros))]
pub fn set_zeros<I: IntDomain>(base: &BaseInfo, row: &mut [Cell<I>], zero: FirstZero<I>)
    ensures length { length row.new ≡ length row.old }
    ensures row { row.new ≡ set_zeros base.now zero row.old }
{
    for at in 0..base.shape.zeros.as_slice().len() {
        put_zero(row, zero_position(base, at), zero);
    }
}
