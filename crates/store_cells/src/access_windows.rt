//! The offsets at which an access may begin.
ghost use Rattle.std.specs.Prelude.{◌≡◌, ◌≤ℤ◌, ◌+ℤ◌, ◌-ℤ◌, pos, unsigned_abs};
ghost use Rattle.std.specs.Int.{w128, saturate_signed};
ghost use Rattle.store_cells.specs.AccessWindows.{last_offset, LiesInWindow, window_of_range, window_within, added_ranges, last_place, access_range, window_of, window_between_if, window_met, window_is_one, window_lies_within, window_from, window_bytes};

use cc_base::{IntDomain, range_met, upper_or};
use pointer_domain::Pointers;

/// The offsets from `lo` to `hi`, counted from the first byte of an object; never empty.
#[derive(Clone, Copy, PartialEq, Eq, Debug)]
pub struct Window {
    pub lo: u64,
    pub hi: u64,
}

/// A number as an offset.
fn offset_of(n: i128) -> u64
    requires lo { pos 0 ≤ℤ n }
    requires hi { n ≤ℤ pos last_offset }
    ensures { result ≡ unsigned_abs n }
{
    n as u64
}

/// The numbers of a range as offsets.
fn window_of_range(range: Option<(i128, i128)>) -> Option<Window>
    requires { LiesInWindow range }
    ensures { result ≡ window_of_range range }
{
    match range {
        None => None,
        Some(p) => Some(Window {
            lo: offset_of(p.0),
            hi: offset_of(p.1),
        }),
    }
}

/// The offsets of a range that are not below 0 and fit 64 bits.
pub fn window_within(range: Option<(i128, i128)>) -> Option<Window>
    ensures { result ≡ window_within range }
{
    window_of_range(range_met(range, 0, 0xffff_ffff_ffff_ffff))
}

fn saturated_sum(a: i128, b: i128) -> i128
    ensures { result ≡ saturate_signed w128 (a +ℤ b) }
{
    a.saturating_add(b)
}

/// The sums of a number of each; those of bounds from -2^64 to 2^64 need 66 bits.
pub fn added_ranges(x: Option<(i128, i128)>, y: Option<(i128, i128)>) -> Option<(i128, i128)>
    ensures { result ≡ added_ranges x y }
{
    match (x, y) {
        (Some(p), Some(q)) => Some((saturated_sum(p.0, q.0), saturated_sum(p.1, q.1))),
        _ => None,
    }
}

/// The last place above the lower bound from which an access of `size` bytes stays below the upper
/// bound.
fn last_place<I: IntDomain>(at: Pointers<I>, size: u64) -> i128
    ensures { result ≡ last_place I.numbers at size }
{
    upper_or(0, at.len.bounds()).saturating_sub(size as i128)
}

/// The offsets at which an access of `size` bytes through the pointers can begin, so that it stays
/// below the upper bound: the lower bound and what is above it from 0 on.
pub fn access_range<I: IntDomain>(at: Pointers<I>, size: u64) -> Option<(i128, i128)>
    ensures { result ≡ access_range I.numbers at size }
{
    added_ranges(
        at.lo.bounds(),
        range_met(at.rel.bounds(), 0, last_place(at, size)),
    )
}

/// The window of an access of `size` bytes; None where it can begin nowhere.
pub fn window_of<I: IntDomain>(at: Pointers<I>, size: u64) -> Option<Window>
    ensures { result ≡ window_of I.numbers at size }
{
    window_within(access_range(at, size))
}

/// The window from `lo` to `hi`, where there is one.
fn window_between(lo: u64, hi: u64) -> Option<Window>
    ensures { result ≡ window_between_if lo hi }
{
    if lo <= hi {
        Some(Window { lo, hi })
    } else {
        None
    }
}

impl Window {
    /// The offsets of both.
    pub fn met(self, lo: u64, hi: u64) -> Option<Window>
        ensures { result ≡ window_met self lo hi }
    {
        window_between(self.lo.max(lo), self.hi.min(hi))
    }

    /// Whether there is one offset.
    pub fn is_one(self) -> bool
        ensures { result ≡ window_is_one self }
    {
        self.lo == self.hi
    }

    /// Whether each offset lies from `lo` to `hi`.
    pub fn lies_within(self, lo: u64, hi: u64) -> bool
        ensures { result ≡ window_lies_within self lo hi }
    {
        lo <= self.lo && self.hi <= hi
    }

    /// The offsets counted from an earlier one.
    pub fn from_start(self, start: u64) -> Window
        ensures { result ≡ window_from self start }
    {
        Window {
            lo: self.lo.saturating_sub(start),
            hi: self.hi.saturating_sub(start),
        }
    }

    /// The offsets of the bytes of an access of so many bytes, at least 1, that begins in the window.
    pub fn bytes(self, size: u64) -> Window
        ensures { result ≡ window_bytes self size }
    {
        Window {
            lo: self.lo,
            hi: self.hi.saturating_add(size.saturating_sub(1)),
        }
    }
}
